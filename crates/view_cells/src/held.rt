use crate::board::LOCK;
use crate::fits::Fits;
use crate::plays::LetGo;
use crate::seat::Seat;
use std::snapshot::Snapshot;

/// The value while a seat holds it. It has to be put back.
pub struct Held<'a, T: Fits> {
    pub(crate) seat: &'a mut Seat<T>,
    pub(crate) value: T,
    // The value as it was taken.
    pub(crate) taken: Snapshot<T>,
}

impl<'a, T: Fits> Held<'a, T> {
    ghost use Rattle.std.specs.Prelude.{◌≡◌};
    ghost use Rattle.std.specs.Borrow.{sem};
    ghost use Rattle.view_cells.specs.Lending.{lends_value};
    ghost use Rattle.view_cells.specs.Seats.{view_of, IsHolding, KeepsOthers, GoesOn, HasPutBack};
    ghost use Rattle.view_cells.specs.Helds.{holder, value_in, value_taken};

    /// The value, to read and to write.
    pub fn value(&mut self) -> &mut T
        ensures* lends { sem 𝓛 (lends_value T.row T.View.row T.Entry.row T.Fits self.entry result) }
        ensures value { result.now ≡ value_in self.old }
    {
        &mut self.value
    }

    /// Puts the value back. It is one step, takes no memory and doesn't wait.
    pub fn put_back(self)
        requires held { IsHolding (holder self) (value_taken self) }
        requires fits { T.fits (view_of (holder self)) (value_in self) }
        requires others { KeepsOthers T.entries (holder self) (value_taken self) (value_in self) }
        requires own { GoesOn T.entries (holder self) (value_in self) }
        ensures { HasPutBack T.entries (holder self.entry) self.exit.0.now (value_in self.entry) }
    {
        let Held {
            seat,
            value,
            taken: _,
        } = self;
        let shared = &seat.table.shared;
        let None = shared.exchange(&mut seat.place, 0, Some(value)) else {
            unreachable!()
        };
        shared.store::<LetGo>(&mut seat.place, LOCK, 0);
    }
}
