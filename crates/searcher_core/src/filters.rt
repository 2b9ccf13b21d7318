//! Filters that may be cached: looked up in their order, and evaluated where they are not there.
ghost use Rattle.std.specs.Prelude.{◌≡◌, ◌++◌, ◌∷◌, [], IfOk, OnErr, map, None};
ghost use Rattle.std.specs.Arc.{arc_value};
ghost use Rattle.query_eval.specs.Found.{answer};
ghost use Rattle.query_eval.specs.Kept.{Kept};
ghost use Rattle.search_model.specs.Noting.{AreNotes, IsNote};
ghost use Rattle.view_cells.specs.Seats.{own_list, view_of};
ghost use Rattle.shared_cells.specs.Seated.{IsBack, IsPlaced, owned_key};
ghost use Rattle.searcher_core.specs.Evaluated.{AskInTurn, computed, computed_by};
ghost use Rattle.searcher_core.specs.Noting.{may_cache};
ghost use Rattle.searcher_core.specs.RequestCalls.{FilterCall, FiltersCalls, RefusedFilters};
ghost use Rattle.searcher_core.specs.Searches.{cached, queries_of};

use doc_sets::DocSet;
use field_schema::NoMemory;
use request_form::Filter;
use rt_edge::Gate;
use search_model::Note;
use searcher_cells::{FilterSet, set_of_filter};
use segment_postings::Reads;
use shared_cells::Cell;
use std::alloc::Global;
use std::sync::{Arc, Wait};
use view_cells::Seat;

// The sets of the filters that may be cached, in their order, and a note for each filter. They are all looked up before
// anything is intersected.
pub(crate) fn cached_sets<P: Reads, R: Wait, G: Gate>(
    rt: &R,
    alloc: Global,
    seat: &mut Seat<Cell<FilterSet>>,
    filters: &[Filter],
    probe: &mut P,
    gate: &G,
    caller: u32,
) -> Result<(Vec<Arc<DocSet>>, Vec<Note>), NoMemory>
    requires placed { IsPlaced (λ v. v.seats) seat.old }
    requires owns { owned_key seat.old ≡ None }
    requires view { P.view probe.old ≡ (view_of seat.old).view }
    ensures back { IsBack seat.old seat.new }
    ensures owns { owned_key seat.new ≡ None }
    ensures kept { Kept P.view P.terms P.counted probe.old probe.new }
    ensures sets { IfOk result (λ r. map arc_value r.0.items
        ≡ map (λ q. answer q (P.view probe.old)) (queries_of (cached filters.now))) }
    ensures notes { IfOk result (λ r. AreNotes (may_cache filters.now) r.1.items) }
    ensures asked { IfOk result (λ r. AskInTurn (computed filters.now r.1.items)
        (P.counted probe.old).postings (P.counted probe.new).postings) }
    ensures list { IfOk result (λ r. FiltersCalls (P.view probe.old) filters.now r.1.items
        (own_list seat.old) (own_list seat.new)) }
    ensures no_memory { OnErr result (RefusedFilters (P.view probe.old) filters.now
        (own_list seat.old) (own_list seat.new)) }
{
    let mut sets = Vec::new(alloc);
    let mut notes = Vec::with_capacity(alloc, filters.len())?;
    for filter in filters {
        let note = noted(rt, alloc, seat, filter, &mut sets, probe, gate, caller)?;
        notes.push(note)?;
    }
    Ok((sets, notes))
}

// Puts the set of a filter that may be cached behind the others, and gives the filter's note.
fn noted<P: Reads, R: Wait, G: Gate>(
    rt: &R,
    alloc: Global,
    seat: &mut Seat<Cell<FilterSet>>,
    filter: &Filter,
    sets: &mut Vec<Arc<DocSet>>,
    probe: &mut P,
    gate: &G,
    caller: u32,
) -> Result<Note, NoMemory>
    requires placed { IsPlaced (λ v. v.seats) seat.old }
    requires owns { owned_key seat.old ≡ None }
    requires view { P.view probe.old ≡ (view_of seat.old).view }
    ensures back { IsBack seat.old seat.new }
    ensures owns { owned_key seat.new ≡ None }
    ensures kept { Kept P.view P.terms P.counted probe.old probe.new }
    ensures sets { IfOk result (λ _. map arc_value sets.new.items ≡ map arc_value sets.old.items
        ++ map (λ q. answer q (P.view probe.old)) (queries_of (cached (filter.now ∷ [])))) }
    ensures note { IfOk result (λ n. IsNote filter.now.cached n) }
    ensures asked { IfOk result (λ n. AskInTurn (computed_by n filter.now.query)
        (P.counted probe.old).postings (P.counted probe.new).postings) }
    ensures list { IfOk result (λ n. FilterCall (P.view probe.old) filter.now n
        (own_list seat.old) (own_list seat.new)) }
    ensures no_memory { OnErr result (RefusedFilters (P.view probe.old) (filter.now ∷ [])
        (own_list seat.old) (own_list seat.new)) }
{
    if !filter.cached {
        return Ok(Note::Bypassed);
    }
    let (set, note) = set_of_filter(rt, alloc, seat, &filter.query, probe, gate, caller)?;
    sets.push(set)?;
    Ok(note)
}
