ghost use Rattle.std.specs.Prelude.{◌≡◌, None};
ghost use Rattle.view_cells.specs.Seats.{IsIdle, view_of};
ghost use Rattle.registry_core.specs.Keeping.{IsPinnedAt};

use crate::caller::Caller;
use crate::change::Change;
use crate::locked::Locked;
use crate::writer::Writer;
use searcher_table::{Pin, Shown};
use view_cells::Seat;

/// A caller while it pins a generation.
#[derive(Drop)]
pub struct Pinned<D: Shown, U: Drop, W: Writer<D, U>> {
    pub(crate) pin: Pin<D, Change<U>>,
    pub(crate) lock: Seat<Locked<D, U, W>>,
    ghost at_table: { IsPinnedAt (view_of lock) pin },
    ghost idle: { IsIdle lock },
    ghost free: { pin.place.me.0.announced ≡ None },
}

impl<D: Shown, U: Drop, W: Writer<D, U>> Pinned<D, U, W> {
    ghost use Rattle.std.specs.Prelude.{◌≡◌};
    ghost use Rattle.searcher_table.specs.Pins.{IsDoorOf};
    ghost use Rattle.registry_core.specs.Holding.{HasUnpinned};

    /// The generation that is pinned.
    pub fn generation(&self) -> u32
        ensures { result ≡ self.now.pin.generation }
    {
        self.pin.generation()
    }

    /// How many acquires of the generation came before.
    pub fn ticket(&self) -> u32
        ensures { result ≡ self.now.pin.ticket }
    {
        self.pin.ticket()
    }

    /// Releases the generation, with what was done through the door. It is one step and, where nobody uses the generation
    /// any more, one step more, which frees its slot. It takes no memory and doesn't wait.
    pub fn release(self) -> Caller<D, U, W>
        requires door { IsDoorOf D.setting D.docs self.pin }
        ensures { HasUnpinned D.list self result }
    {
        let Pinned { pin, lock } = self;
        Caller {
            pass: pin.release(),
            lock,
        }
    }
}
