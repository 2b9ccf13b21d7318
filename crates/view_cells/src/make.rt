use crate::NoMemory;
use crate::board::{Setting, Table, WORDS};
use crate::fits::Fits;
use crate::plays::SplitOff;
use crate::seat::Seat;
use std::alloc::Global;
use std::snapshot::Snapshot;
use std::sync::Arc;

/// A value that threads share, each by a seat of its own.
pub struct CellTable;

impl CellTable {
    ghost use Rattle.std.specs.Prelude.{◌≡◌, ℕ, [], ◌≤◌, length, IfOk};
    ghost use Rattle.view_cells.specs.Seats.{AreSeats};
    ghost use Rattle.view_cells.specs.Closing.{AllIdle, FitsAll, KeepsEach};

    /// Puts a value into a table of its own and gives its seats, which are numbered from 0 and name this view.
    ///
    /// # Errors
    /// [`NoMemory`]; the value is then dropped.
    pub fn make<T: Fits>(
        alloc: Global,
        value: T,
        view: &T::View,
        seats: u32,
    ) -> Result<Vec<Seat<T>>, NoMemory>
        requires seats { (1 ≤ seats) × (seats ≤ 65) }
        requires fits { T.fits view.now value }
        requires empty { (n : ℕ) → T.entries value n ≡ [] }
        ensures count { IfOk result (λ made. length made.items ≡ seats) }
        ensures seats { IfOk result (λ made. AreSeats view.now seats made.items) }
    {
        let Ok(mut made) = Vec::with_capacity(alloc, seats as usize) else {
            return Err(NoMemory);
        };
        let mut last = Seat::first(alloc, value, view, seats)?;
        for next in 1..seats {
            last = deal(&mut made, last, next)?;
        }
        made.push_reserved(last);
        Ok(made)
    }

    /// Joins all seats of a table, which are given in the order of their numbers, and gives the value. It
    /// takes no memory and doesn't wait.
    pub fn close_all<T: Fits>(mut seats: Vec<Seat<T>>) -> T
        requires row { AllIdle seats.items }
        requires some { 1 ≤ length seats.items }
        ensures fits { FitsAll T.fits seats.items result }
        ensures lists { KeepsEach T.entries seats.items result }
    {
        let Some(mut one) = seats.pop() else {
            unreachable!()
        };
        while let Some(other) = seats.pop() {
            one.join(other);
        }
        one.close()
    }
}

ghost use Rattle.std.specs.Prelude.{◌≡◌, ◌+◌, ◌<◌, length, vec_len, vec_capacity, IfOk};
ghost use Rattle.view_cells.specs.Seats.{view_of, seat_count};
ghost use Rattle.view_cells.specs.Making.{AreFirst};

// Puts the last seat into the row, and gives the seat that has the numbers behind it.
fn deal<T: Fits>(made: &mut Vec<Seat<T>>, mut last: Seat<T>, next: u32) -> Result<Seat<T>, NoMemory>
    requires room { vec_len made.old < vec_capacity made.old }
    requires next { (next ≡ length made.old.items + 1) × (next < seat_count last) }
    requires made { AreFirst (view_of last) (seat_count last) made.old.items last }
    ensures made { IfOk result (λ seat. AreFirst (view_of last) (seat_count last) made.new.items seat) }
    ensures room { vec_capacity made.new ≡ vec_capacity made.old }
    ensures count { IfOk result (λ seat. length made.new.items ≡ next) }
{
    let seat = last.split_off(next)?;
    made.push_reserved(last);
    Ok(seat)
}

impl<T: Fits> Seat<T> {
    ghost use Rattle.std.specs.Prelude.{◌≡◌, ℕ, ◌+◌, ◌<◌, ◌≤◌, [], IfOk};
    ghost use Rattle.view_cells.specs.Seats.{table_of, view_of, seat_count};
    ghost use Rattle.view_cells.specs.Making.{IsLast, HasTheRest, KeepsOwn};

    // The first seat of a new table, which has all numbers.
    fn first(alloc: Global, value: T, view: &T::View, seats: u32) -> Result<Seat<T>, NoMemory>
        requires seats { (1 ≤ seats) × (seats ≤ 65) }
        requires fits { T.fits view.now value }
        requires empty { (n : ℕ) → T.entries value n ≡ [] }
        ensures { IfOk result (IsLast view.now seats 0) }
    {
        let Ok(mut slots) = Vec::with_capacity(alloc, 1) else {
            return Err(NoMemory);
        };
        slots.push_reserved(Some(value));
        let about = Setting {
            view: Snapshot::of(view),
            seats,
        };
        let Ok((table, place)) = Table::new(alloc, &[0; WORDS], slots, &about) else {
            return Err(NoMemory);
        };
        let Ok(table) = Arc::new(alloc, table) else {
            return Err(NoMemory);
        };
        Ok(Seat {
            number: 0,
            place,
            table,
        })
    }

    // Splits off a seat that has the numbers behind this one.
    fn split_off(&mut self, next: u32) -> Result<Seat<T>, NoMemory>
        requires next { (next ≡ self.old.number + 1) × (next < seat_count self.old) }
        requires last { HasTheRest self.old }
        ensures this { IfOk result (λ _. KeepsOwn self.old self.new) }
        ensures seat { IfOk result (IsLast (view_of self.old) (seat_count self.old) next) }
        ensures table { IfOk result (λ seat. table_of seat ≡ table_of self.old) }
        ensures stays { IfOk result (λ _. table_of self.new ≡ table_of self.old) }
    {
        let Ok(table) = Arc::try_clone(&self.table) else {
            return Err(NoMemory);
        };
        let place = self.table.shared.split_seat::<SplitOff>(&mut self.place);
        Ok(Seat {
            number: next,
            place,
            table,
        })
    }
}
