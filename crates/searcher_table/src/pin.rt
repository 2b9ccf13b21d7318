ghost use Rattle.std.specs.Prelude.{◌≡◌, ◌≤◌, ◌<◌, [], ◌∷◌, Some, None, count_by};
ghost use Rattle.std.specs.Arc.{arc_value};
ghost use Rattle.registry_machine.specs.Callers.{mine};
ghost use Rattle.searcher_table.specs.declared.board.Task.TheVariants.{Idle};
ghost use Rattle.searcher_table.specs.declared.board.Cell.TheVariants.{Empty};
ghost use Rattle.searcher_table.specs.Counts.{is_acquire, pinned};
ghost use Rattle.searcher_table.specs.Doors.{cell_of};
ghost use Rattle.searcher_table.specs.Warming.{IsOpenFor};

use crate::board::{CELLS, CURRENT, Cell, GENERATION, MASKS, Place, SLOT, SLOTS, SharedTable};
use crate::pass::Pass;
use crate::plays::{Acquire, Free, HandOut, Release};
use crate::shown::Shown;
use crate::tokens::Sighting;

/// A caller's hold on the generation that was current when it acquired, for one thread at a time. The generation's slot
/// stays its own until the pin is released; a pin that is dropped keeps it, and the door is lost.
#[derive(Drop)]
pub struct Pin<D: Shown, U: Drop> {
    pub(crate) caller: u32,
    // How often the caller has acquired, and may.
    pub(crate) made: u32,
    pub(crate) budget: u32,
    pub(crate) generation: u32,
    pub(crate) ticket: u32,
    // The slot of the generation.
    pub(crate) slot: u32,
    // The caller's door to it.
    pub(crate) door: D,
    pub(crate) place: Place<D, U, D::Setting, D::Docs, D::Deed>,
    pub(crate) table: SharedTable<D, U, D::Setting, D::Docs, D::Deed>,
    ghost at_table: { place.table_id ≡ (arc_value table).shared.table_id },
    ghost sized: { place.table_id.words ≡ 1168 },
    ghost told: { place.me.0.plan ≡ Some (arc_value table).shared.key },
    ghost numbered: { place.me.0.caller ≡ caller },
    ghost ranged: { (1 ≤ caller) × (caller ≤ 64) },
    ghost own: { place.me.0.mine ≡ mine caller place.me.0.seen },
    ghost tried: { made ≡ count_by is_acquire place.me.0.mine },
    ghost most: { budget ≡ (arc_value table).shared.key.budget },
    ghost within: { made ≤ budget },
    ghost holds: { pinned caller place.me.0.mine ≡ Some generation },
    ghost opened: { IsOpenFor (arc_value table).shared.key place.me.0.seen slot generation },
    ghost below: { slot < 70 },
    ghost empty_handed: { place.me.0.hand ≡ None },
    ghost idle: { place.me.0.task ≡ Idle },
    ghost none_back: { place.me.0.back ≡ [] },
    ghost out: { place.me.1 ≡ (cell_of slot caller, Empty) ∷ [] },
}

/// Why nothing was acquired.
#[derive(Clone, Copy, Drop, Debug, PartialEq, Eq)]
pub enum AcquireRefusal {
    /// Nothing was current. This counts as an acquire of the pass.
    NotYet,
    /// The pass had acquired so often as it may, and made no step.
    Spent { made: u32 },
}

impl<D: Shown, U: Drop> Pass<D, U> {
    ghost use Rattle.std.specs.Prelude.{◌<◌, IfOk, IfErr};
    ghost use Rattle.searcher_table.specs.Pins.{HasAcquired, CameTooEarly, IsNotAcquired, IsDoorOf, IsAsLeft};

    /// Acquires what is current, with the caller's door to it, which is as the caller's last release of it left it, or the
    /// opening. It is one addition to the current word, takes no memory and doesn't wait.
    ///
    /// # Errors
    /// The pass comes back with an [`AcquireRefusal`]: `Spent` exactly where it has acquired as often as it may, and then no
    /// step is made; else `NotYet` exactly where nothing was current.
    pub fn acquire(self) -> Result<Pin<D, U>, (Pass<D, U>, AcquireRefusal)>
        ensures acquired { IfOk result (λ pin. HasAcquired self pin) }
        ensures door { IfOk result (λ pin. IsDoorOf D.setting D.docs pin) }
        ensures left { IfOk result (λ pin. IsAsLeft D.list pin) }
        ensures refused { IfErr result (λ r. IsNotAcquired self r.0 r.1) }
    {
        if self.made >= self.budget {
            let made = self.made;
            return Err((self, AcquireRefusal::Spent { made }));
        }
        match self.acquire_once() {
            Ok(pin) => Ok(pin),
            Err(pass) => Err((pass, AcquireRefusal::NotYet)),
        }
    }

    // Acquires what is current. The pass comes back where nothing is.
    fn acquire_once(self) -> Result<Pin<D, U>, Pass<D, U>>
        requires { self.made < self.budget }
        ensures acquired { IfOk result (λ pin. HasAcquired self pin) }
        ensures door { IfOk result (λ pin. IsDoorOf D.setting D.docs pin) }
        ensures left { IfOk result (λ pin. IsAsLeft D.list pin) }
        ensures early { IfErr result (λ pass. CameTooEarly self pass) }
    {
        let Pass {
            caller,
            made,
            budget,
            mut place,
            table,
        } = self;
        let word = table.shared.fetch_add::<Acquire>(&mut place, CURRENT, 1);
        let generation = (word / GENERATION) as u32;
        if generation == 0 {
            return Err(Pass {
                caller,
                made: made + 1,
                budget,
                place,
                table,
            });
        }
        let cell = CELLS * (word / SLOT % 128) as usize + caller as usize - 1;
        let door = table.shared.exchange(&mut place, cell, Cell::Empty).door();
        Ok(Pin {
            caller,
            made: made + 1,
            budget,
            generation,
            ticket: (word % SLOT) as u32,
            slot: (word / SLOT % 128) as u32,
            door,
            place,
            table,
        })
    }
}

impl<D: Shown, U: Drop> Pin<D, U> {
    ghost use Rattle.std.specs.Prelude.{◌≡◌, ◌+◌, ◌*◌, ◌<◌};
    ghost use Rattle.std.specs.Borrow.{sem};
    ghost use Rattle.searcher_table.specs.Lending.{lends_door};
    ghost use Rattle.searcher_table.specs.Pins.{HasReleased, IsSamePin, IsSightingOf, IsDoorOf};

    /// The caller's number, from 1 on.
    pub fn caller(&self) -> u32
        ensures { result ≡ self.now.caller }
    {
        self.caller
    }

    /// The generation that was acquired.
    pub fn generation(&self) -> u32
        ensures { result ≡ self.now.generation }
    {
        self.generation
    }

    /// How many acquires of the generation came before.
    pub fn ticket(&self) -> u32
        ensures { result ≡ self.now.ticket }
    {
        self.ticket
    }

    /// The caller's door to the generation's searcher, to look and to write through.
    pub fn door(&mut self) -> &mut D
        ensures* lends { sem 𝓛 (lends_door D.row U.row D.Setting.row D.Docs.row D.Deed.row D.Shown self.entry result) }
        ensures value { result.now ≡ self.old.door }
    {
        &mut self.door
    }

    /// What this pin's pass has seen, for another one to meet. It takes no memory and doesn't wait.
    pub fn note(&mut self) -> Sighting<D, U>
        ensures pin { IsSamePin self.old self.new }
        ensures note { IsSightingOf self.new result }
    {
        let place = self.table.shared.split_seat::<HandOut>(&mut self.place);
        Sighting { place }
    }

    /// Lets the generation go, and puts the door back, whose deeds the entry tells. It is one addition to the slot's word
    /// and, where nobody uses the generation any more, one step more, which frees its slot. It takes no memory and doesn't
    /// wait.
    pub fn release(self) -> Pass<D, U>
        requires door { IsDoorOf D.setting D.docs self }
        ensures { HasReleased D.list self result }
    {
        let Pin {
            caller,
            made,
            budget,
            generation: _,
            ticket: _,
            slot,
            door,
            mut place,
            table,
        } = self;
        let cell = CELLS * slot as usize + caller as usize - 1;
        table.shared.exchange(&mut place, cell, Cell::Full(door));
        let word = SLOTS + 8 * slot as usize;
        let found = table.shared.fetch_add::<Release>(&mut place, word, 1);
        if found / SLOT != found % SLOT + 2 {
            return Pass {
                caller,
                made,
                budget,
                place,
                table,
            };
        }
        let mask = MASKS + 8 * (slot as usize / 64);
        let bit = 1 << (slot % 64);
        table.shared.fetch_or::<Free>(&mut place, mask, bit);
        Pass {
            caller,
            made,
            budget,
            place,
            table,
        }
    }
}
