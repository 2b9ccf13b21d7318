ghost use Rattle.std.specs.Prelude.{◌≡◌, ◌≤◌, length, IfOk};
ghost use Rattle.searcher_table.specs.Making.{setting_of, IsFor, AreDealt, IsOpening};

use crate::NoMemory;
use crate::board::{CELLS, Cell, Link, MASKS, Plan, SharedTable, Table, WORDS};
use crate::gens::Gens;
use crate::pass::Pass;
use crate::plays::Deal;
use crate::registrar::Registrar;
use crate::shown::Shown;
use std::alloc::Global;
use std::snapshot::Snapshot;
use std::sync::Arc;

/// Makes a table and gives a pass to each caller, numbered from 1, and the registrar. Nothing is current. They name this
/// setting.
///
/// # Errors
/// [`NoMemory`].
pub fn make<D: Shown, U: Drop>(
    alloc: Global,
    setting: &D::Setting,
    callers: u32,
    max_warming: u32,
    first_generation: u32,
    budget: u32,
) -> Result<(Vec<Pass<D, U>>, Registrar<D, U>), NoMemory>
    requires callers { (1 ≤ callers) × (callers ≤ 64) }
    requires warming { (1 ≤ max_warming) × (max_warming ≤ 4) }
    requires generation { (1 ≤ first_generation) × (first_generation ≤ 33554431) }
    requires budget { (1 ≤ budget) × (budget ≤ 67108863) }
    ensures count { IfOk result (λ made. length made.0.items ≡ callers) }
    ensures setting { IfOk result (λ made. setting_of made.1 ≡ setting.now) }
    ensures numbers { IfOk result (λ m. IsFor callers max_warming first_generation budget m.1) }
    ensures passes { IfOk result (λ made. AreDealt made.1 made.0.items) }
    ensures registrar { IfOk result (λ made. IsOpening made.1) }
{
    let Ok(mut passes) = Vec::with_capacity(alloc, callers as usize) else {
        return Err(NoMemory);
    };
    let plan = Plan {
        setting: Snapshot::of(setting),
        callers,
        max_warming,
        first_generation,
        budget,
    };
    let mut registrar = Registrar::first(alloc, &plan)?;
    for caller in 1..callers + 1 {
        deal(&mut passes, &mut registrar, caller, budget)?;
    }
    Ok((passes, registrar))
}

ghost use Rattle.std.specs.Prelude.{◌+◌, ◌<◌, vec_len, vec_capacity};
ghost use Rattle.searcher_table.specs.Making.{ArePassesOf, IsNext};
ghost use Rattle.searcher_table.specs.Registrars.{plan_of};

// Puts the next caller's pass into the row.
fn deal<D: Shown, U: Drop>(
    passes: &mut Vec<Pass<D, U>>,
    registrar: &mut Registrar<D, U>,
    caller: u32,
    budget: u32,
) -> Result<(), NoMemory>
    requires budget { budget ≡ (plan_of registrar.old).budget }
    requires room { vec_len passes.old < vec_capacity passes.old }
    requires next { IsNext registrar.old passes.old.items caller }
    requires few { caller ≤ (plan_of registrar.old).callers }
    requires passes { ArePassesOf registrar.old passes.old.items }
    ensures passes { IfOk result (λ _. ArePassesOf registrar.new passes.new.items) }
    ensures next { IfOk result (λ _. IsNext registrar.new passes.new.items (caller + 1)) }
    ensures plan { IfOk result (λ _. plan_of registrar.new ≡ plan_of registrar.old) }
    ensures room { vec_capacity passes.new ≡ vec_capacity passes.old }
{
    let pass = registrar.deal(caller, budget)?;
    passes.push_reserved(pass);
    Ok(())
}

ghost use Rattle.std.specs.Prelude.{◌*◌, ◌-◌, ◌^◌};
ghost use Rattle.std.specs.List.{AllByRecursion};
ghost use Rattle.searcher_table.specs.declared.board.Cell.TheVariants.{Empty};

// So many bits, from the lowest on.
fn ones(count: u32) -> u64
    requires { count ≤ 64 }
    ensures { result ≡ 2 ^ count - 1 }
{
    if count == 64 {
        return u64::MAX;
    }
    (1 << count) - 1
}

// Cells without doors.
fn empty_cells<D: Shown, U: Drop>(alloc: Global, count: usize) -> Result<Vec<Cell<D, U>>, NoMemory>
    ensures count { IfOk result (λ cells. length cells.items ≡ count) }
    ensures empty { IfOk result (λ cells. AllByRecursion (λ x. x ≡ Empty) cells.items) }
{
    let Ok(mut cells) = Vec::with_capacity(alloc, count) else {
        return Err(NoMemory);
    };
    for _ in 0..count {
        cells.push_reserved(Cell::Empty);
    }
    Ok(cells)
}

ghost use Rattle.searcher_table.specs.Spares.{AreRooms};

// So many empty rows, each with room for a door of each caller.
fn rooms<D: Shown>(alloc: Global, count: usize, callers: u32) -> Result<Vec<Vec<D>>, NoMemory>
    ensures count { IfOk result (λ rows. length rows.items ≡ count) }
    ensures rooms { IfOk result (λ rows. AreRooms callers rows.items) }
{
    let Ok(mut rows) = Vec::with_capacity(alloc, count) else {
        return Err(NoMemory);
    };
    for _ in 0..count {
        let Ok(row) = Vec::with_capacity(alloc, callers as usize) else {
            return Err(NoMemory);
        };
        rows.push_reserved(row);
    }
    Ok(rows)
}

ghost use Rattle.std.specs.Arc.{arc_value};
ghost use Rattle.searcher_table.specs.Spares.{AreAt};

// So many references to the table.
fn links<D: Shown, U: Drop>(
    alloc: Global,
    table: &SharedTable<D, U, D::Setting, D::Docs, D::Deed>,
    count: u32,
) -> Result<Vec<Link<D, U>>, NoMemory>
    ensures count { IfOk result (λ made. length made.items ≡ count) }
    ensures room { IfOk result (λ made. vec_capacity made ≡ count) }
    ensures table { IfOk result (λ made. AreAt (arc_value table.now).shared.table_id made.items) }
{
    let Ok(mut made) = Vec::with_capacity(alloc, count as usize) else {
        return Err(NoMemory);
    };
    for _ in 0..count {
        let Ok(table) = Arc::try_clone(table) else {
            return Err(NoMemory);
        };
        made.push_reserved(Link { table });
    }
    Ok(made)
}

impl<D: Shown, U: Drop> Registrar<D, U> {
    ghost use Rattle.std.specs.Prelude.{◌≡◌, ◌+◌, ◌≤◌, IfOk};
    ghost use Rattle.searcher_table.specs.Registrars.{plan_of, table_of};
    ghost use Rattle.searcher_table.specs.Making.{IsOpening, IsNewPass, next_of, HasDealt};

    // The registrar of a new table, who has all passes.
    fn first(alloc: Global, plan: &Plan<D::Setting>) -> Result<Registrar<D, U>, NoMemory>
        requires callers { (1 ≤ plan.now.callers) × (plan.now.callers ≤ 64) }
        requires warming { plan.now.max_warming ≤ 4 }
        requires first { 1 ≤ plan.now.first_generation }
        requires last { plan.now.first_generation ≤ 33554431 }
        requires budget { plan.now.budget ≤ 67108863 }
        ensures plan { IfOk result (λ r. plan_of r ≡ plan.now) }
        ensures opening { IfOk result IsOpening }
        ensures next { IfOk result (λ r. next_of r ≡ 1) }
    {
        let slots = plan.callers + plan.max_warming + 2;
        let cells = empty_cells(alloc, slots as usize * CELLS)?;
        let mut words = [0; WORDS];
        words[MASKS] = ones(slots.min(64));
        words[MASKS + 8] = ones(slots.saturating_sub(64));
        let Ok((table, place)) = Table::new(alloc, &words, cells, plan) else {
            return Err(NoMemory);
        };
        let Ok(table) = Arc::new(alloc, table) else {
            return Err(NoMemory);
        };
        let spare = links(alloc, &table, plan.max_warming)?;
        let rows = rooms(alloc, slots as usize, plan.callers)?;
        let Ok(closed) = Vec::with_capacity(alloc, slots as usize) else {
            return Err(NoMemory);
        };
        Ok(Registrar {
            places: 0,
            max_warming: plan.max_warming,
            callers: plan.callers,
            last: plan.first_generation - 1,
            current: 0,
            warming: Gens::none(),
            spare,
            rows,
            closed,
            place,
            table,
        })
    }

    // Deals the next caller's pass.
    fn deal(&mut self, caller: u32, budget: u32) -> Result<Pass<D, U>, NoMemory>
        requires budget { budget ≡ (plan_of self.old).budget }
        requires next { (next_of self.old ≡ caller) × (1 ≤ caller) }
        requires few { caller ≤ (plan_of self.old).callers }
        ensures registrar { IfOk result (λ _. HasDealt self.old self.new) }
        ensures pass { IfOk result (λ pass. IsNewPass self.new caller pass) }
    {
        let Ok(table) = Arc::try_clone(&self.table) else {
            return Err(NoMemory);
        };
        let place = self.table.shared.split_seat::<Deal>(&mut self.place);
        Ok(Pass {
            caller,
            made: 0,
            budget,
            place,
            table,
        })
    }
}
