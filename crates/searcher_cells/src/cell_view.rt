use segment_postings::View;
use std::marker::Model;
use std::sync::Arc;

/// What a cache of a searcher is about. Contracts see the searcher's numbered live documents, the most entries of the cache,
/// and its seats.
#[derive(Drop)]
pub struct CellView {
    view: Arc<View>,
    size: u32,
    seats: u32,
}

impl Model for CellView {
    ghost use Rattle.std.specs.Arc.{arc_value};
    ghost use Rattle.searcher_cells.specs.Sights.{Sight};

    ghost Value = { Sight };

    ghost view = { λ c. record { view = (arc_value c.view).seen; size = c.size; seats = c.seats } };
}

impl CellView {
    ghost use Rattle.std.specs.Prelude.{◌≡◌};
    ghost use Rattle.std.specs.Arc.{arc_value};

    /// What a cache of this size with so many seats is about.
    pub fn new(view: Arc<View>, size: u32, seats: u32) -> CellView
        ensures { result ≡ record { view = (arc_value view).seen; size = size; seats = seats } }
    {
        CellView { view, size, seats }
    }
}
