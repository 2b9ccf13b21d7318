//! What the cached filters, the main query and the other filters have in common, and the result that is made of it.
ghost use Rattle.std.specs.Prelude.{◌≡◌, ◌+◌, ◌≤◌, ◌++◌, [], ◌∷◌, IfOk, List, Some, length, map, true, option_map};
ghost use Rattle.std.specs.Arc.{arc_value};
ghost use Rattle.std.specs.FinSet.{len};
ghost use Rattle.std.specs.FinSet as set;
ghost use Rattle.doc_sets.specs.Sets.{Numbers};
ghost use Rattle.query_eval.specs.Kept.{Kept};
ghost use Rattle.result_cache.specs.Entries.{serves};
ghost use Rattle.segment_postings.specs.Numbered.{numbers};
ghost use Rattle.sort_window.specs.First.{AreLive, first_numbers};
ghost use Rattle.searcher_core.specs.Meeting.{HasMet, IsCommonOf, left_of};
ghost use Rattle.searcher_core.specs.Windows.{IsFirstWindow};
ghost use Rattle.searcher_core.specs.Searches.{IsByCost, queries_of, uncached};

use doc_sets::DocSet;
use field_schema::NoMemory;
use query_eval::eval;
use query_tree::Query;
use request_form::{Filter, Request};
use result_cache::Entry;
use segment_postings::Reads;
use sort_window::{first_n, window};
use std::alloc::Global;
use std::sync::Arc;

// The numbers that all sets have, if there are sets. One set alone is shared.
pub(crate) fn common(alloc: Global, sets: &[Arc<DocSet>]) -> Result<Option<Arc<DocSet>>, NoMemory>
    ensures { IfOk result (λ s. IsCommonOf (map arc_value sets.now) (option_map arc_value s)) }
{
    let mut common = None;
    for set in sets {
        common = Some(in_common(alloc, common, set)?);
    }
    Ok(common)
}

// The numbers that a set has too.
fn in_common(
    alloc: Global,
    common: Option<Arc<DocSet>>,
    set: &Arc<DocSet>,
) -> Result<Arc<DocSet>, NoMemory>
    ensures { IfOk result (λ s. (sets : List Numbers) → IsCommonOf sets (option_map arc_value common)
        → IsCommonOf (sets ++ arc_value set.now ∷ []) (Some (arc_value s))) }
{
    match common {
        None => Ok(Arc::clone(set)?),
        Some(left) => both(alloc, &left, set),
    }
}

// The numbers that both sets have.
fn both(alloc: Global, left: &DocSet, right: &DocSet) -> Result<Arc<DocSet>, NoMemory>
    ensures { IfOk result (λ s. arc_value s ≡ set.intersection left.now right.now) }
{
    let Ok(both) = left.and(alloc, right) else {
        return Err(NoMemory);
    };
    Ok(Arc::new(alloc, both)?)
}

// What the main query matches of what is left. Where nothing is left, it isn't evaluated.
pub(crate) fn with_main<P: Reads>(
    alloc: Global,
    query: &Query,
    left: Option<Arc<DocSet>>,
    probe: &mut P,
) -> Result<Arc<DocSet>, NoMemory>
    ensures kept { Kept P.view P.terms P.counted probe.old probe.new }
    ensures met { IfOk result (λ s. HasMet (P.view probe.old) (query.now ∷ [])
        (left_of (P.view probe.old) (option_map arc_value left)) (arc_value s)
        (P.counted probe.old).postings (P.counted probe.new).postings) }
{
    match left {
        None => of_all(alloc, query, probe),
        Some(left) => of_these(alloc, query, left, probe),
    }
}

// What a query matches of all live documents.
fn of_all<P: Reads>(alloc: Global, query: &Query, probe: &mut P) -> Result<Arc<DocSet>, NoMemory>
    ensures kept { Kept P.view P.terms P.counted probe.old probe.new }
    ensures met { IfOk result (λ s. HasMet (P.view probe.old) (query.now ∷ [])
        (set.from_list (numbers (P.view probe.old))) (arc_value s)
        (P.counted probe.old).postings (P.counted probe.new).postings) }
{
    if probe.live().len() == 0 {
        return Ok(Arc::new(alloc, DocSet::new(alloc))?);
    }
    let found = eval(alloc, probe, query)?;
    Ok(Arc::new(alloc, found)?)
}

// What a query matches of a set.
fn of_these<P: Reads>(
    alloc: Global,
    query: &Query,
    left: Arc<DocSet>,
    probe: &mut P,
) -> Result<Arc<DocSet>, NoMemory>
    ensures kept { Kept P.view P.terms P.counted probe.old probe.new }
    ensures met { IfOk result (λ s. HasMet (P.view probe.old) (query.now ∷ []) (arc_value left) (arc_value s)
        (P.counted probe.old).postings (P.counted probe.new).postings) }
{
    let _live = probe.live();
    if left.len() == 0 {
        return Ok(left);
    }
    let found = eval(alloc, probe, query)?;
    both(alloc, &left, &found)
}

// The filters that may not be cached, by ascending cost.
pub(crate) fn by_cost(alloc: Global, filters: &[Filter]) -> Result<Vec<&Filter>, NoMemory>
    ensures { IfOk result (λ v. IsByCost (uncached filters.now) (map (λ f. f.now) v.items)) }
{
    let mut turns = Vec::new(alloc);
    for filter in filters {
        if !filter.cached {
            turns.push(filter)?;
        }
    }
    turns.sort_by_key(|filter| filter.cost)?;
    Ok(turns)
}

// What filters match of a set, each evaluated in its turn as long as something is left.
pub(crate) fn in_turn<P: Reads>(
    alloc: Global,
    set: Arc<DocSet>,
    turns: &[&Filter],
    probe: &mut P,
) -> Result<Arc<DocSet>, NoMemory>
    ensures kept { Kept P.view P.terms P.counted probe.old probe.new }
    ensures met { IfOk result (λ s. HasMet (P.view probe.old) (queries_of (map (λ f. f.now) turns.now))
        (arc_value set) (arc_value s) (P.counted probe.old).postings (P.counted probe.new).postings) }
{
    let mut left = set;
    for turn in turns {
        left = of_these(alloc, &turn.query, left, probe)?;
    }
    Ok(left)
}

// The result of what was found: how many there are, and the first of them in the order of the sort, a window of them or
// all.
pub(crate) fn collected<P: Reads>(
    alloc: Global,
    request: &Request,
    size: u32,
    set: &DocSet,
    probe: &mut P,
) -> Result<Entry, NoMemory>
    requires size { 1 ≤ size }
    requires live { AreLive set.now (P.view probe.old) }
    ensures counts { IfOk result (λ e. e.found ≡ len set.now) }
    ensures lists { IfOk result (λ e. e.ids
        ≡ first_numbers (length e.ids) request.now.sort set.now (P.view probe.old)) }
    ensures window { IfOk result (λ e. IsFirstWindow request.now size set.now (P.view probe.old) e.ids) }
    ensures enough { IfOk result (λ e. serves (request.now.start + request.now.rows) e ≡ true) }
    ensures view { P.view probe.new ≡ P.view probe.old }
    ensures terms { P.terms probe.new ≡ P.terms probe.old }
    ensures postings { (P.counted probe.new).postings ≡ (P.counted probe.old).postings }
    ensures stored { (P.counted probe.new).stored ≡ (P.counted probe.old).stored }
{
    let _live = probe.live();
    let most = window(request.start, request.rows, size);
    let ids = first_n(alloc, probe, set, &request.sort, most)?;
    Ok(Entry {
        ids,
        found: set.len(),
    })
}
