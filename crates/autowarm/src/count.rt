ghost use Rattle.std.specs.Prelude.{◌≡◌, ◌*◌, ◌/◌, min};
ghost use Rattle.autowarm.specs.WarmKeys.{warm_number};

/// How many keys of an old cache are regenerated in the new one.
#[derive(Clone, Copy, Debug, PartialEq, Eq)]
pub enum WarmCount {
    /// So many.
    Count(u32),
    /// So many percent of those that there are.
    Percent(u32),
}

/// How many of `length` keys are regenerated: the number, or the percentage of them rounded down, and at most all of them.
///
/// Any numbers will do. It costs nothing.
pub fn warm_number(count: WarmCount, length: u32) -> u32
    ensures { result ≡ warm_number count length }
{
    match count {
        WarmCount::Count(number) => number.min(length),
        WarmCount::Percent(percent) => share(percent, length),
    }
}

// So many percent of a number, rounded down, and at most all of it.
fn share(percent: u32, length: u32) -> u32
    ensures { result ≡ min (percent * length / 100) length }
{
    let share = u64::from(percent) * u64::from(length) / 100;
    share.min(u64::from(length)) as u32
}
