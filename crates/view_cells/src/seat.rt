ghost use Rattle.std.specs.Prelude.{◌≡◌, ◌≤◌, true, Some};
ghost use Rattle.std.specs.Arc.{arc_value};
ghost use Rattle.view_cells.specs.Lists.{first_number, names, AreDistinct};

use crate::board::{LOCK, Place, SharedTable};
use crate::fits::Fits;
use crate::held::Held;
use crate::plays::{Gather, Take};
use std::snapshot::Snapshot;
use std::sync::Wait;
use std::thread::yield_now;

/// A seat at a table of one value, for one thread at a time.
#[derive(Drop)]
pub struct Seat<T: Fits> {
    pub(crate) number: u32,
    pub(crate) place: Place<T, T::View, T::Entry>,
    pub(crate) table: SharedTable<T, T::View, T::Entry>,
    ghost at_table: { place.table_id ≡ (arc_value table).shared.table_id },
    ghost sized: { (place.table_id.words ≡ 16) × (place.table_id.slots ≡ 1) },
    ghost told: { place.me.0.setting ≡ Some (arc_value table).shared.key },
    ghost few: { (arc_value table).shared.key.seats ≤ 65 },
    ghost numbered: { number ≡ first_number place.me.0.lists },
    ghost named: { names number place.me.0.lists ≡ true },
}

/// The value is held by the seat of this number.
#[derive(Clone, Copy, Debug, PartialEq, Eq)]
pub struct Busy {
    pub by: u32,
}

impl<T: Fits> Seat<T> {
    ghost use Rattle.std.specs.Prelude.{◌≡◌, IfOk, IfErr};
    ghost use Rattle.std.specs.Borrow.{sem};
    ghost use Rattle.view_cells.specs.Lending.{seat_rests};
    ghost use Rattle.view_cells.specs.Helds.{holder, value_in, IsFresh};
    ghost use Rattle.view_cells.specs.Seats.{IsIdle, IsAnother, IsSole, HasJoined, FindsAtLast, view_of, table_of, lists_of, HasTaken, IsRefused, Finds, FitsSeat, KeepsLists};

    /// The seat's number, from 0 on.
    pub fn number(&self) -> u32
        ensures { result ≡ self.now.number }
    {
        self.number
    }

    // Takes the value out of its cell, if nobody holds it.
    fn grab(&mut self) -> Result<T, Busy>
        requires { IsIdle self.old }
        ensures taken { IfOk result (λ value. HasTaken self.old self.new value) }
        ensures fits { IfOk result (λ value. FitsSeat T.fits T.entries self.old value) }
        ensures busy { IfErr result (λ busy. IsAnother self.old busy.by) }
        ensures free { IfOk result (λ _. Finds self.old self.new 0) }
        ensures others { IfErr result (λ _. ¬ IsSole self.old) }
        ensures refused { IfErr result (λ busy. IsRefused self.old self.new busy.by) }
        ensures distinct { AreDistinct (lists_of self.old) }
    {
        let shared = &self.table.shared;
        let mine = u64::from(self.number) + 1;
        let found = shared.compare_exchange::<Take>(&mut self.place, LOCK, 0, mine);
        if found != 0 {
            let by = (found - 1) as u32;
            return Err(Busy { by });
        }
        Ok(shared.exchange(&mut self.place, 0, None).unwrap())
    }

    /// Takes the value, if nobody holds it. It is one step, takes no memory and doesn't wait.
    ///
    /// # Errors
    /// [`Busy`] only where the lock word, as this step read it, was one more than the number of the other seat that it names.
    pub fn try_take(&mut self) -> Result<Held<'_, T>, Busy>
        requires { IsIdle self.old }
        ensures* refused { sem 𝓛 (seat_rests T.row T.View.row T.Entry.row T.Fits self.entry result) }
        ensures same_reference { IfOk result (λ h. h.seat.ghost_name ≡ self.entry.ghost_name) }
        ensures taken { IfOk result (λ h. HasTaken self.old (holder h) (value_in h)) }
        ensures fresh { IfOk result IsFresh }
        ensures fits { IfOk result (λ h. FitsSeat T.fits T.entries self.old (value_in h)) }
        ensures free { IfOk result (λ h. Finds self.old (holder h) 0) }
        ensures busy { IfErr result (λ busy. IsAnother self.old busy.by) }
    {
        match self.grab() {
            Ok(value) => {
                let taken = Snapshot::of(&value);
                Ok(Held {
                    seat: self,
                    value,
                    taken,
                })
            }
            Err(busy) => Err(busy),
        }
    }

    // Tries until the value is free.
    fn wait<R: Wait>(&mut self, rt: &R) -> T
        requires { IsIdle self.old }
        ensures taken { HasTaken self.old self.new result }
        ensures fits { FitsSeat T.fits T.entries self.old result }
        ensures free { FindsAtLast self.old self.new }
    {
        for _ in rt.forever() {
            if let Ok(value) = self.grab() {
                return value;
            }
            yield_now();
        }
        unreachable!()
    }

    /// Tries until it has the value, and lets other threads run between its tries. It takes no memory, and may wait for ever.
    pub fn take<R: Wait>(&mut self, rt: &R) -> Held<'_, T>
        requires { IsIdle self.old }
        ensures same_reference { result.seat.ghost_name ≡ self.entry.ghost_name }
        ensures taken { HasTaken self.old (holder result) (value_in result) }
        ensures fresh { IsFresh result }
        ensures fits { FitsSeat T.fits T.entries self.old (value_in result) }
        ensures free { FindsAtLast self.old (holder result) }
    {
        let value = self.wait(rt);
        let taken = Snapshot::of(&value);
        Held {
            seat: self,
            value,
            taken,
        }
    }

    /// Joins another seat of the same table into this one, which then has that one's number and list too. It takes no
    /// memory and doesn't wait.
    pub fn join(&mut self, other: Seat<T>)
        requires table { table_of other ≡ table_of self.old }
        requires idle { IsIdle self.old }
        requires other_idle { IsIdle other }
        ensures { HasJoined self.old other self.new }
    {
        let Seat {
            number: _,
            place,
            table: _,
        } = other;
        self.table
            .shared
            .join_seat::<Gather>(&mut self.place, place);
    }

    /// The value, once all other seats of the table were joined into this one: no number is that of two of them. It takes no
    /// memory and doesn't wait.
    pub fn close(mut self) -> T
        requires idle { IsIdle self }
        requires sole { IsSole self }
        ensures fits { T.fits (view_of self) result }
        ensures lists { KeepsLists T.entries self result }
        ensures distinct { AreDistinct (lists_of self) }
    {
        match self.grab() {
            Ok(value) => value,
            Err(_) => unreachable!(),
        }
    }
}
