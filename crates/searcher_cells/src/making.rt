ghost use Rattle.std.specs.Prelude.{◌≡◌, ◌<◌, length, IfOk};
ghost use Rattle.std.specs.Arc.{arc_value};
ghost use Rattle.view_cells.specs.Seats.{AreSeats};
ghost use Rattle.cache_traces.specs.Traces.{rules};
ghost use Rattle.searcher_cells.specs.Making.{IsSeatCount, IsCacheSize, IsEmptyCell, IsEmptyStore, GoesBySight, document_rules, sight};

use crate::cell_view::CellView;
use crate::document_value::DocumentValue;
use crate::filter_set::FilterSet;
use crate::result_entry::ResultEntry;
use cache_traces::{TracedCells, TracedStore};
use field_schema::NoMemory;
use segment_postings::View;
use shared_cells::{Cell, Kept, StoreCell};
use std::alloc::Global;
use std::sync::Arc;
use view_cells::{CellTable, Seat};

/// Seats at a filter cache of this view that keeps nothing yet, numbered from 0.
///
/// Fails only for want of memory. It costs the memory of the seats; entries take theirs as they come.
pub fn filter_seats(
    alloc: Global,
    view: Arc<View>,
    size: u32,
    seats: u32,
) -> Result<Vec<Seat<Cell<FilterSet>>>, NoMemory>
    requires size { IsCacheSize size }
    requires seats { IsSeatCount seats }
    ensures count { IfOk result (λ made. length made.items ≡ seats) }
    ensures seats { IfOk result (λ made.
        AreSeats (sight (arc_value view).seen size seats) seats made.items) }
{
    cell_seats(alloc, CellView::new(view, size, seats), size, seats)
}

/// Seats at a result cache of this view that keeps nothing yet, numbered from 0.
///
/// Fails only for want of memory. It costs the memory of the seats; entries take theirs as they come.
pub fn result_seats(
    alloc: Global,
    view: Arc<View>,
    size: u32,
    seats: u32,
) -> Result<Vec<Seat<Cell<ResultEntry>>>, NoMemory>
    requires size { IsCacheSize size }
    requires seats { IsSeatCount seats }
    ensures count { IfOk result (λ made. length made.items ≡ seats) }
    ensures seats { IfOk result (λ made.
        AreSeats (sight (arc_value view).seen size seats) seats made.items) }
{
    cell_seats(alloc, CellView::new(view, size, seats), size, seats)
}

/// Seats at a store of documents of this view that keeps nothing yet, numbered from 0.
///
/// Fails only for want of memory. It costs the memory of the seats; documents take theirs as they come.
pub fn document_seats(
    alloc: Global,
    view: Arc<View>,
    size: u32,
    seats: u32,
) -> Result<Vec<Seat<StoreCell<DocumentValue>>>, NoMemory>
    requires size { IsCacheSize size }
    requires seats { IsSeatCount seats }
    ensures count { IfOk result (λ made. length made.items ≡ seats) }
    ensures seats { IfOk result (λ made.
        AreSeats (sight (arc_value view).seen size seats) seats made.items) }
{
    let about = CellView::new(view, size, seats);
    let store = empty_store(alloc, size)?;
    let Ok(made) = CellTable::make(alloc, store, &about, seats) else {
        return Err(NoMemory);
    };
    Ok(made)
}

// Seats at a cache of these values.
fn cell_seats<V: Kept<View = CellView>>(
    alloc: Global,
    about: CellView,
    size: u32,
    seats: u32,
) -> Result<Vec<Seat<Cell<V>>>, NoMemory>
    requires size { IsCacheSize size }
    requires seats { IsSeatCount seats }
    requires about { (about.size ≡ size) × (about.seats ≡ seats) }
    requires values { GoesBySight V.size V.greatest V.seats }
    ensures count { IfOk result (λ made. length made.items ≡ seats) }
    ensures seats { IfOk result (λ made. AreSeats about seats made.items) }
{
    let cell = empty_cell(alloc, size, seats)?;
    let Ok(made) = CellTable::make(alloc, cell, &about, seats) else {
        return Err(NoMemory);
    };
    Ok(made)
}

// A cache that keeps nothing.
fn empty_cell<V: Kept>(alloc: Global, size: u32, seats: u32) -> Result<Cell<V>, NoMemory>
    requires { 0 < size }
    ensures { IfOk result (λ c.
        IsEmptyCell (rules V.Key.eq V.weight V.serves V.numbers V.keeps) size seats c.cells) }
{
    let cells = TracedCells::new(alloc, size, None, seats)?;
    let _seats = cells.seats();
    Ok(Cell { cells })
}

// A store that keeps nothing.
fn empty_store(alloc: Global, size: u32) -> Result<StoreCell<DocumentValue>, NoMemory>
    requires { 0 < size }
    ensures { IfOk result (λ c. IsEmptyStore document_rules size c.cells) }
{
    let cells = TracedStore::new(alloc, size, None)?;
    let _len = cells.len();
    Ok(StoreCell { cells })
}
