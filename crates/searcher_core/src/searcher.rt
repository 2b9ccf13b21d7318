ghost use Rattle.std.specs.Prelude.{◌≡◌, length, map, IfOk};
ghost use Rattle.std.specs.List.{AllByRecursion};
ghost use Rattle.view_cells.specs.Seats.{IsIdle};
ghost use Rattle.std.specs.Arc.{arc_value};
ghost use Rattle.searcher_cells.specs.Making.{IsSeatCount};
ghost use Rattle.searcher_core.specs.Doors.{AreDoors};
ghost use Rattle.searcher_core.specs.Resting.{IsAtRest};
ghost use Rattle.searcher_core.specs.Shows.{AreSizes, shows};

use crate::seats::Seats;
use crate::sizes::CacheSizes;
use field_schema::NoMemory;
use searcher_cells::{
    DocumentValue, FilterSet, ResultEntry, document_seats, filter_seats, result_seats,
};
use segment_postings::View;
use shared_cells::{Cell, StoreCell};
use std::alloc::Global;
use std::marker::Model;
use std::sync::Arc;
use view_cells::Seat;

/// A view of an index that is never changed, with the sizes of the caches that serve from it. Contracts see the numbered
/// live documents, the sizes, and how many doors there are.
#[derive(Drop)]
pub struct Searcher {
    view: Arc<View>,
    sizes: CacheSizes,
    seats: u32,
}

impl Model for Searcher {
    ghost use Rattle.std.specs.Arc.{arc_value};
    ghost use Rattle.searcher_core.specs.Shows.{Shows, AreSizes, shows};

    ghost Value = { Shows };

    ghost view = { λ s. shows (arc_value s.view).seen s.sizes s.seats };

    ghost invariant = { λ s. AreSizes s.sizes };
}

/// A caller's door to a searcher: the searcher, and the caller's seats at its caches.
#[derive(Drop)]
pub struct Door {
    pub searcher: Arc<Searcher>,
    pub seats: Seats,
}

impl Searcher {
    /// So many doors, 1 to 65, to a searcher of this view and these sizes, whose caches keep nothing yet. Each may be used by
    /// a thread of its own.
    ///
    /// Fails only for want of memory. It costs the memory of the caches' seats; entries take theirs as they come.
    pub fn new(
        alloc: Global,
        view: Arc<View>,
        sizes: CacheSizes,
        seats: u32,
    ) -> Result<Vec<Door>, NoMemory>
        requires sizes { AreSizes sizes }
        requires seats { IsSeatCount seats }
        ensures count { IfOk result (λ ds. length ds.items ≡ seats) }
        ensures doors { IfOk result (λ ds.
            AreDoors (shows (arc_value view).seen sizes seats) ds.items) }
    {
        let of_filters = Arc::clone(&view)?;
        let filters = filter_seats(alloc, of_filters, sizes.filters, seats)?;
        let of_results = Arc::clone(&view)?;
        let results = result_seats(alloc, of_results, sizes.results, seats)?;
        let of_documents = Arc::clone(&view)?;
        let documents = document_seats(alloc, of_documents, sizes.documents, seats)?;
        let searcher = Arc::new(alloc, Searcher { view, sizes, seats })?;
        let doors = dealt(alloc, &searcher, filters, results, documents)?;
        Ok(doors)
    }

    /// The view. It costs nothing.
    pub fn view(&self) -> &View
        ensures { result.now.seen ≡ self.now.view }
    {
        &self.view
    }

    /// The sizes of the caches. It costs nothing.
    pub fn sizes(&self) -> CacheSizes
        ensures sizes { result ≡ self.now.sizes }
        ensures limits { AreSizes result }
    {
        self.sizes
    }
}

// The doors that have these seats, in their order.
fn dealt(
    alloc: Global,
    searcher: &Arc<Searcher>,
    filters: Vec<Seat<Cell<FilterSet>>>,
    results: Vec<Seat<Cell<ResultEntry>>>,
    documents: Vec<Seat<StoreCell<DocumentValue>>>,
) -> Result<Vec<Door>, NoMemory>
    requires results { length results.items ≡ length filters.items }
    requires documents { length documents.items ≡ length filters.items }
    requires filters_rest { AllByRecursion IsAtRest filters.items }
    requires results_rest { AllByRecursion IsAtRest results.items }
    requires documents_rest { AllByRecursion IsIdle documents.items }
    ensures searcher { IfOk result (λ ds.
        AllByRecursion (λ d. arc_value d.searcher ≡ arc_value searcher.now) ds.items) }
    ensures filters { IfOk result (λ ds. map (λ d. d.seats.filters) ds.items ≡ filters.items) }
    ensures results { IfOk result (λ ds. map (λ d. d.seats.results) ds.items ≡ results.items) }
    ensures documents { IfOk result (λ ds.
        map (λ d. d.seats.documents) ds.items ≡ documents.items) }
{
    let mut doors = Vec::with_capacity(alloc, filters.len())?;
    let mut all_filters = filters.into_iter();
    let mut all_results = results.into_iter();
    let mut all_documents = documents.into_iter();
    while let Some(filters) = all_filters.next() {
        let (Some(results), Some(documents)) = (all_results.next(), all_documents.next()) else {
            unreachable!()
        };
        let seats = Seats {
            filters,
            results,
            documents,
        };
        let searcher = Arc::clone(searcher)?;
        doors.push(Door { searcher, seats })?;
    }
    Ok(doors)
}
