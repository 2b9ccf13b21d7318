//! The doors of a searcher are closed, and its caches tell what they were called for.
ghost use Rattle.std.specs.Prelude.{◌≡◌, ℕ, ◌<◌, [], map};
ghost use Rattle.std.specs.Arc.{arc_value};
ghost use Rattle.cache_traces.specs.Acts.{calls_of};
ghost use Rattle.cache_traces.specs.StoreTraces.{store_calls_of};
ghost use Rattle.searcher_cells.specs.Making.{document_rules};
ghost use Rattle.searcher_cells.specs.Sights.{DocumentFits, FilterFits, ResultFits, any_size, is_kept};
ghost use Rattle.view_cells.specs.Closing.{AreLeft};
ghost use Rattle.view_cells.specs.Seats.{own_list, view_of};
ghost use Rattle.searcher_books.specs.Books.{book_of, store_book_of};
ghost use Rattle.searcher_books.specs.Closing.{AreAllDoors, AreRun, AreStoreRun, OfEach};
ghost use Rattle.searcher_books.specs.Closing.{filter_rules, result_rules};

use crate::book::{Book, of_store, of_trace};
use cache_traces::{StoreStep, Trace};
use query_tree::Query;
use result_cache::ResultKey;
use searcher_cells::{DocumentValue, FilterSet, ResultEntry, ResultNumbers};
use searcher_core::Door;
use shared_cells::{Cell, Kept, StoreCell};
use view_cells::Seat;

/// The calls of the three caches of a searcher, in their order. Those of a filter cache and of a result cache have their
/// keys by number, and the keys once.
#[derive(Drop)]
pub struct Traces {
    pub filters: Trace<Query, u32>,
    pub results: Trace<ResultKey, ResultNumbers>,
    pub documents: Vec<StoreStep<Option<u64>>>,
}

/// What the caches of a searcher did.
#[derive(Drop)]
pub struct Books {
    pub document: Book,
    pub filter: Book,
    pub result: Book,
    /// How many entries warming left out for want of memory.
    pub left_out: u32,
    pub traces: Traces,
}

// The seats of a searcher's last door, into which those of the other doors were joined.
#[derive(Drop)]
struct Last {
    filters: Seat<Cell<FilterSet>>,
    results: Seat<Cell<ResultEntry>>,
    documents: Seat<StoreCell<DocumentValue>>,
}

/// Closes all doors of a searcher, which are given in the order of their seats' numbers, and gives the books of its caches:
/// their calls, and the numbers of these. What the caches kept is dropped.
///
/// It takes no memory and doesn't wait. It costs a step for each door and each call.
pub fn close_doors(doors: Vec<Door>) -> Books
    requires doors { AreAllDoors doors.items }
    ensures filter_book { result.filter ≡ book_of any_size result.traces.filters.steps }
    ensures result_book { result.result ≡ book_of is_kept result.traces.results.steps }
    ensures document_book { result.document ≡ store_book_of result.traces.documents.items }
    ensures left_out { result.left_out ≡ 0 }
    ensures filter_run { OfEach doors.items (λ _ d. AreRun filter_rules FilterFits
        (view_of d.seats.filters) result.traces.filters.keys result.traces.filters.steps) }
    ensures result_run { OfEach doors.items (λ _ d. AreRun result_rules ResultFits
        (view_of d.seats.results) result.traces.results.keys result.traces.results.steps) }
    ensures document_run { OfEach doors.items (λ _ d. AreStoreRun document_rules DocumentFits
        (view_of d.seats.documents) result.traces.documents.items) }
    ensures filter_calls { OfEach doors.items (λ i d.
        calls_of i result.traces.filters.steps ≡ own_list d.seats.filters) }
    ensures result_calls { OfEach doors.items (λ i d.
        calls_of i result.traces.results.steps ≡ own_list d.seats.results) }
    ensures document_calls { OfEach doors.items (λ i d.
        store_calls_of i result.traces.documents.items ≡ own_list d.seats.documents) }
{
    let last = joined(doors);
    let filters = last.filters.close().cells.into_trace();
    let results = last.results.close().cells.into_trace();
    let documents = last.documents.close().cells.into_steps();
    Books {
        document: of_store(documents.as_slice()),
        filter: of_trace::<FilterSet>(&filters),
        result: of_trace::<ResultEntry>(&results),
        left_out: 0,
        traces: Traces {
            filters,
            results,
            documents,
        },
    }
}

// Joins the seats of all doors into those of the last one.
fn joined(mut doors: Vec<Door>) -> Last
    requires doors { AreAllDoors doors.items }
    ensures filters { AreLeft (map (λ d. d.seats.filters) doors.items) [] result.filters }
    ensures results { AreLeft (map (λ d. d.seats.results) doors.items) [] result.results }
    ensures documents { AreLeft (map (λ d. d.seats.documents) doors.items) [] result.documents }
{
    let Some(door) = doors.pop() else {
        unreachable!()
    };
    let mut last = seats_of(door);
    while let Some(door) = doors.pop() {
        let other = seats_of(door);
        last.filters.join(other.filters);
        last.results.join(other.results);
        last.documents.join(other.documents);
    }
    last
}

// A door's seats alone.
fn seats_of(door: Door) -> Last
    ensures filters { result.filters ≡ door.seats.filters }
    ensures results { result.results ≡ door.seats.results }
    ensures documents { result.documents ≡ door.seats.documents }
{
    Last {
        filters: door.seats.filters,
        results: door.seats.results,
        documents: door.seats.documents,
    }
}
