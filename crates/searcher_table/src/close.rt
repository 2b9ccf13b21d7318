use crate::board::{CELLS, Cell, Place, REGISTRAR, SharedTable};
use crate::pass::Pass;
use crate::plays::{GiveUp, TakeOut};
use crate::registrar::Registrar;
use crate::shown::Shown;

/// A table that was given up: its whole history, and the entries of each caller as its pass left them.
#[derive(Drop)]
pub struct Ended<D: Shown, U: Drop> {
    // The last seat.
    pub(crate) place: Place<D, U, D::Setting, D::Docs, D::Deed>,
    pub(crate) table: SharedTable<D, U, D::Setting, D::Docs, D::Deed>,
}

ghost use Rattle.std.specs.Prelude.{◌≡◌, ◌+◌, ◌<◌, ◌≤◌, [], length, vec_capacity};
ghost use Rattle.std.specs.Arc.{arc_value};
ghost use Rattle.searcher_table.specs.Words.{limits};
ghost use Rattle.searcher_table.specs.Spares.{AreRooms};
ghost use Rattle.searcher_table.specs.Doors.{cell_of};
ghost use Rattle.searcher_table.specs.Closing.{IsCloser, HasTakenDoor, HasEmptied, AreRowsTo};

// Takes what lies in the cell of a slot's caller, which is a door where the slot was ever opened.
fn take_out<D: Shown, U: Drop>(
    table: &SharedTable<D, U, D::Setting, D::Docs, D::Deed>,
    place: &mut Place<D, U, D::Setting, D::Docs, D::Deed>,
    slot: u32,
    caller: u32,
) -> Option<D>
    requires table { place.old.table_id ≡ (arc_value table.now).shared.table_id }
    requires sized { place.old.table_id.words ≡ 1168 }
    requires closer { IsCloser (arc_value table.now).shared.key place.old.me.0
        (cell_of slot caller) }
    requires slot { slot < (limits (arc_value table.now).shared.key).slots }
    requires caller { (1 ≤ caller) × (caller ≤ (arc_value table.now).shared.key.callers) }
    requires few { (limits (arc_value table.now).shared.key).slots ≤ 70 }
    requires callers { (arc_value table.now).shared.key.callers ≤ 64 }
    ensures table { place.new.table_id ≡ place.old.table_id }
    ensures door { HasTakenDoor D.setting D.docs D.list (arc_value table.now).shared.key
        place.old.me.0 place.new.me.0 slot caller result }
{
    let cell = CELLS * slot as usize + caller as usize - 1;
    table.shared.store::<TakeOut>(place, REGISTRAR, cell as u64);
    table.shared.exchange(place, cell, Cell::Empty).found()
}

// Puts the doors of a slot into its row, in the order of their callers.
fn empty_slot<D: Shown, U: Drop>(
    table: &SharedTable<D, U, D::Setting, D::Docs, D::Deed>,
    place: &mut Place<D, U, D::Setting, D::Docs, D::Deed>,
    slot: u32,
    callers: u32,
    mut row: Vec<D>,
) -> Vec<D>
    requires table { place.old.table_id ≡ (arc_value table.now).shared.table_id }
    requires sized { place.old.table_id.words ≡ 1168 }
    requires closer { IsCloser (arc_value table.now).shared.key place.old.me.0 (cell_of slot 1) }
    requires slot { slot < (limits (arc_value table.now).shared.key).slots }
    requires number { callers ≡ (arc_value table.now).shared.key.callers }
    requires few { (limits (arc_value table.now).shared.key).slots ≤ 70 }
    requires callers { callers ≤ 64 }
    requires empty { row.items ≡ [] }
    requires room { callers ≤ vec_capacity row }
    ensures table { place.new.table_id ≡ place.old.table_id }
    ensures emptied { HasEmptied D.setting D.docs D.list (arc_value table.now).shared.key
        place.old.me.0 place.new.me.0 slot callers result.items }
{
    for caller in 1..callers + 1 {
        match take_out(table, place, slot, caller) {
            Some(door) => row.push_reserved(door),
            None => {}
        }
    }
    row
}

// Puts the doors of all slots into their rows, which are then closed.
fn empty_all<D: Shown, U: Drop>(
    table: &SharedTable<D, U, D::Setting, D::Docs, D::Deed>,
    place: &mut Place<D, U, D::Setting, D::Docs, D::Deed>,
    callers: u32,
    rows: Vec<Vec<D>>,
    mut closed: Vec<Vec<D>>,
) -> Vec<Vec<D>>
    requires table { place.old.table_id ≡ (arc_value table.now).shared.table_id }
    requires sized { place.old.table_id.words ≡ 1168 }
    requires closer { IsCloser (arc_value table.now).shared.key place.old.me.0 0 }
    requires number { callers ≡ (arc_value table.now).shared.key.callers }
    requires few { (limits (arc_value table.now).shared.key).slots ≤ 70 }
    requires callers { callers ≤ 64 }
    requires slots { length rows.items ≡ (limits (arc_value table.now).shared.key).slots }
    requires rooms { AreRooms callers rows.items }
    requires none { closed.items ≡ [] }
    requires room { length rows.items ≤ vec_capacity closed }
    ensures table { place.new.table_id ≡ place.old.table_id }
    ensures seen { place.new.me.0.seen ≡ place.old.me.0.seen }
    ensures back { place.new.me.0.back ≡ place.old.me.0.back }
    ensures count { length result.items ≡ (limits (arc_value table.now).shared.key).slots }
    ensures rows { AreRowsTo D.setting D.docs D.list (arc_value table.now).shared.key
        place.old.me.0.seen result.items }
{
    let mut slot = 0;
    for row in rows {
        closed.push_reserved(empty_slot(table, place, slot, callers, row));
        slot += 1;
    }
    closed
}

impl<D: Shown, U: Drop> Registrar<D, U> {
    ghost use Rattle.std.specs.Prelude.{◌≡◌, []};
    ghost use Rattle.std.specs.List.{AllByRecursion};
    ghost use Rattle.searcher_table.specs.Rule.{AreBack};
    ghost use Rattle.searcher_table.specs.Passes.{announced_of, table_of as table_of_pass};
    ghost use Rattle.searcher_table.specs.Registrars.{table_of, plan_of};
    ghost use Rattle.searcher_table.specs.Openings.{warming_of};
    ghost use Rattle.searcher_table.specs.Closing.{left_by, HasTakenAll, HasClosed, AreEachOnce, AreDoorsLeft};

    // Takes all these passes back.
    fn take_all(&mut self, passes: Vec<Pass<D, U>>)
        requires table { AllByRecursion (λ t. table_of_pass t ≡ table_of self.old) passes.items }
        requires none { AllByRecursion (λ t. announced_of t ≡ None) passes.items }
        ensures { HasTakenAll self.old self.new passes.items }
    {
        for pass in passes {
            self.take_back(pass);
        }
    }

    /// Takes these passes back and gives the table up, with the doors of each slot: none where it was never opened, else
    /// one of each caller to the slot's last generation, in the order of the callers. Each slot but the current
    /// generation's is free, and each generation before it was freed once. It takes no memory and doesn't wait.
    pub fn close(mut self, passes: Vec<Pass<D, U>>) -> (Ended<D, U>, Vec<Vec<D>>)
        requires table { AllByRecursion (λ t. table_of_pass t ≡ table_of self) passes.items }
        requires none { AllByRecursion (λ t. announced_of t ≡ None) passes.items }
        requires all { AreBack (plan_of self) (left_by self passes.items) }
        requires warming { warming_of self ≡ [] }
        ensures ended { HasClosed self passes.items result.0 }
        ensures freed { AreEachOnce result.0 }
        ensures doors { AreDoorsLeft D.setting D.docs D.list result.0 result.1.items }
    {
        self.take_all(passes);
        let Registrar {
            places: _,
            max_warming: _,
            callers,
            last: _,
            current: _,
            warming: _,
            mut place,
            table,
            spare: _,
            rows,
            closed,
        } = self;
        table.shared.load::<GiveUp>(&mut place, REGISTRAR);
        let rows = empty_all(&table, &mut place, callers, rows, closed);
        (Ended { place, table }, rows)
    }
}
