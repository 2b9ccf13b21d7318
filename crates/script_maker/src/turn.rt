ghost use Rattle.std.specs.Prelude.{◌≡◌, ◌<◌, ◌^◌};
ghost use Rattle.script_maker.specs.Made.{drawn as drawn_of, number_after as number_after_of, number_after_turn, turn_behind as turn_behind_of};

// What a turn writes of: its index from 0, and three draws.
#[derive(Clone, Copy, Debug)]
pub(crate) struct Turn {
    pub(crate) index: u32,
    pub(crate) cat: u64,
    pub(crate) price: u64,
    pub(crate) word: u64,
}

// The number that a draw makes of the last one.
#[tactic(auto, unfolding(crate::specs::Made::number_after))]
fn number_after(x: u64) -> u64
    requires { x < 2 ^ 31 }
    ensures value { result ≡ number_after_of x }
    ensures small { result < 2 ^ 31 }
{
    (1_103_515_245 * x + 12_345) % 2_147_483_648
}

// What a draw gives, below a bound.
#[tactic(auto, unfolding(crate::specs::Made::drawn))]
fn drawn(x: u64, bound: u64) -> u64
    requires { 0 < bound }
    ensures { result ≡ drawn_of x bound }
{
    x / 65_536 % bound
}

// The turn of that index behind the number x, and the number behind the turn.
pub(crate) fn turn_behind(x: u64, index: u32) -> (Turn, u64)
    requires { x < 2 ^ 31 }
    ensures turn { result.0 ≡ turn_behind_of x index }
    ensures number { result.1 ≡ number_after_turn x }
    ensures small { result.1 < 2 ^ 31 }
{
    let first = number_after(x);
    let second = number_after(first);
    let third = number_after(second);
    let turn = Turn {
        index,
        cat: drawn(first, 7),
        price: drawn(second, 1000),
        word: drawn(third, 20),
    };
    (turn, third)
}
