ghost use Rattle.view_cells.specs.Seats.{IsIdle};
ghost use Rattle.searcher_core.specs.Resting.{IsAtRest};

use searcher_cells::{DocumentValue, FilterSet, ResultEntry};
use shared_cells::{Cell, StoreCell};
use view_cells::Seat;

/// A caller's seats at the three caches of a searcher, which the seats of other callers share.
///
/// Between two calls they hold nothing, and own no key that others could wait for.
#[derive(Drop)]
pub struct Seats {
    /// At the sets of filters.
    pub filters: Seat<Cell<FilterSet>>,
    /// At the results.
    pub results: Seat<Cell<ResultEntry>>,
    /// At the documents.
    pub documents: Seat<StoreCell<DocumentValue>>,
    ghost filters_rest: { IsAtRest filters },
    ghost results_rest: { IsAtRest results },
    ghost documents_rest: { IsIdle documents },
}
