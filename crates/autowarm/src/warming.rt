ghost use Rattle.std.specs.Prelude.{◌≡◌, ◌≤◌, ◌+◌, None};
ghost use Rattle.query_eval.specs.Kept.{Kept};
ghost use Rattle.view_cells.specs.Seats.{IsSameSeat, own_list, view_of};
ghost use Rattle.searcher_core.specs.Resting.{IsAtRest};
ghost use Rattle.searcher_core.specs.Seating.{AreSameSeats, AreSeatsOf};
ghost use Rattle.autowarm.specs.Steps.{FilterStep, ResultStep};
ghost use Rattle.autowarm.specs.Warming.{AreWarmed, IsWarmed};

use crate::count::WarmCount;
use crate::filters::filters_anew;
use crate::keys::warm_keys;
use crate::results::results_anew;
use crate::tally::Tally;
use searcher_cells::{FilterSet, ResultEntry};
use searcher_core::{Searcher, Seats};
use segment_postings::Reads;
use shared_cells::Cell;
use std::alloc::Global;
use std::sync::Wait;
use view_cells::Seat;

/// How many keys of an old searcher's caches are regenerated.
#[derive(Clone, Copy, Debug, PartialEq, Eq)]
pub struct WarmPlan {
    /// Of the filter cache.
    pub filters: WarmCount,
    /// Of the result cache.
    pub results: WarmCount,
}

/// What warming did.
#[derive(Clone, Copy, Debug, PartialEq, Eq)]
pub struct WarmReport {
    /// How many filters were evaluated and kept.
    pub filters: u32,
    /// How many results were made, and kept where they list few enough documents.
    pub results: u32,
    /// How many keys were left out for want of memory, and 1 for each cache whose keys could not be listed.
    pub refused: u32,
}

/// Regenerates in the caches of a new searcher what was used last in those of an old one.
///
/// Of each cache the keys are listed, at most 4,096, and as many of the most recent as the plan says are taken, the least
/// recent of them first, so that they end in the order that they had. First each filter is evaluated on the new view, then each
/// result: its query, its filters without their cache, and the first window of it. What is there already is left as it is.
/// `searcher` and `new` are the fields of one door, and `probe` reads that searcher's view.
///
/// A key for which memory is wanting is left out, and warming goes on; where the keys of a cache can't be listed for want of
/// memory, none of them is regenerated. It waits for the caches, and for others that compute the same keys. It costs the
/// copies of the keys, an evaluation of each, and the memory of the entries.
pub fn warm<P: Reads, R: Wait>(
    rt: &R,
    alloc: Global,
    old: &mut Seats,
    searcher: &Searcher,
    new: &mut Seats,
    plan: &WarmPlan,
    probe: &mut P,
) -> WarmReport
    requires door { AreSeatsOf searcher.now new.old }
    requires view { P.view probe.old ≡ searcher.now.view }
    ensures old_door { AreSameSeats old.old old.new }
    ensures new_door { AreSameSeats new.old new.new }
    ensures warmed { AreWarmed searcher.now plan.now result old.old old.new new.old new.new }
    ensures old_documents { own_list old.new.documents ≡ own_list old.old.documents }
    ensures new_documents { own_list new.new.documents ≡ own_list new.old.documents }
    ensures view { P.view probe.new ≡ P.view probe.old }
    ensures terms { P.terms probe.new ≡ P.terms probe.old }
{
    let old_filters = &mut old.filters;
    let new_filters = &mut new.filters;
    let filters = warm_filters(rt, alloc, old_filters, new_filters, plan.filters, probe);
    let old_results = &mut old.results;
    let results = warm_results(rt, alloc, old_results, searcher, new, plan.results, probe);
    WarmReport {
        filters: filters.computed,
        results: results.computed,
        refused: filters.refused + results.refused,
    }
}

// Nothing of a cache whose keys could not be listed.
const UNLISTED: Tally = Tally {
    computed: 0,
    refused: 1,
};

// The filters of an old cache in a new one.
fn warm_filters<P: Reads, R: Wait>(
    rt: &R,
    alloc: Global,
    old: &mut Seat<Cell<FilterSet>>,
    new: &mut Seat<Cell<FilterSet>>,
    count: WarmCount,
    probe: &mut P,
) -> Tally
    requires old_rest { IsAtRest old.old }
    requires new_rest { IsAtRest new.old }
    requires view { P.view probe.old ≡ (view_of new.old).view }
    ensures old_rest { IsAtRest old.new }
    ensures new_rest { IsAtRest new.new }
    ensures old_seat { IsSameSeat old.old old.new }
    ensures new_seat { IsSameSeat new.old new.new }
    ensures kept { Kept P.view P.terms P.counted probe.old probe.new }
    ensures few { result.computed + result.refused ≤ 4096 }
    ensures warmed { IsWarmed (FilterStep (P.view probe.old)) count
        (own_list old.old) (own_list old.new) (own_list new.old) (own_list new.new)
        result.computed result.refused }
{
    match warm_keys(rt, alloc, old, count) {
        Ok(keys) => filters_anew(rt, alloc, new, keys.as_slice(), probe),
        Err(_) => UNLISTED,
    }
}

// The results of an old cache in a new one.
fn warm_results<P: Reads, R: Wait>(
    rt: &R,
    alloc: Global,
    old: &mut Seat<Cell<ResultEntry>>,
    searcher: &Searcher,
    new: &mut Seats,
    count: WarmCount,
    probe: &mut P,
) -> Tally
    requires old_rest { IsAtRest old.old }
    requires door { AreSeatsOf searcher.now new.old }
    requires view { P.view probe.old ≡ searcher.now.view }
    ensures old_rest { IsAtRest old.new }
    ensures old_seat { IsSameSeat old.old old.new }
    ensures new_door { AreSameSeats new.old new.new }
    ensures few { result.computed + result.refused ≤ 4096 }
    ensures warmed { IsWarmed (ResultStep searcher.now) count
        (own_list old.old) (own_list old.new) (own_list new.old.results) (own_list new.new.results)
        result.computed result.refused }
    ensures filters { own_list new.new.filters ≡ own_list new.old.filters }
    ensures documents { own_list new.new.documents ≡ own_list new.old.documents }
    ensures view { P.view probe.new ≡ P.view probe.old }
    ensures terms { P.terms probe.new ≡ P.terms probe.old }
{
    match warm_keys(rt, alloc, old, count) {
        Ok(keys) => results_anew(rt, alloc, searcher, new, keys.as_slice(), probe),
        Err(_) => UNLISTED,
    }
}
