ghost use Rattle.std.specs.Prelude.{◌≡◌, IfOk, OnErr, None, if◌then◌else◌};
ghost use Rattle.search_model.specs.declared.notes.Note.TheVariants.{Hit, Joined};
ghost use Rattle.std.specs.Arc.{arc_value};
ghost use Rattle.query_tree.specs.declared.query.Query.{out-Query};
ghost use Rattle.query_eval.specs.Found.{answer};
ghost use Rattle.query_eval.specs.Kept.{Asks, Kept as KeptSpec};
ghost use Rattle.view_cells.specs.Seats.{view_of, own_list};
ghost use Rattle.shared_cells.specs.Seated.{IsPlaced, IsBack, owned_key};
ghost use Rattle.searcher_cells.specs.Calls.{AsksByNote, FilterCalls, RefusedCalls};

use crate::filter_set::FilterSet;
use doc_sets::DocSet;
use field_schema::NoMemory;
use query_eval::eval;
use query_tree::Query;
use rt_edge::{Gate, Moment};
use search_model::Note;
use segment_postings::Reads;
use shared_cells::{Cell, Found, finish, give_up, look_up};
use std::alloc::Global;
use std::sync::{Arc, Wait};
use view_cells::Seat;

/// The set of a filter: the one that is kept, or a new one, which is kept from then on; and what the cache did for it.
///
/// While another seat evaluates the filter it waits. The gate is told where the seat owns the filter; during the evaluation the
/// seat holds nothing. Fails only for want of memory, and then the seat owns nothing.
pub fn set_of_filter<P: Reads, R: Wait, G: Gate>(
    rt: &R,
    alloc: Global,
    seat: &mut Seat<Cell<FilterSet>>,
    query: &Query,
    probe: &mut P,
    gate: &G,
    caller: u32,
) -> Result<(Arc<DocSet>, Note), NoMemory>
    requires placed { IsPlaced (λ v. v.seats) seat.old }
    requires owns { owned_key seat.old ≡ None }
    requires view { P.view probe.old ≡ (view_of seat.old).view }
    ensures back { IsBack seat.old seat.new }
    ensures owns { owned_key seat.new ≡ None }
    ensures kept { KeptSpec P.view P.terms P.counted probe.old probe.new }
    ensures set { IfOk result (λ r. arc_value r.0 ≡ answer query.now (P.view probe.old)) }
    ensures asked { IfOk result (λ r. AsksByNote r.1 query.now
        (P.counted probe.old).postings (P.counted probe.new).postings) }
    ensures list { IfOk result (λ r. FilterCalls query.now r.1 (arc_value r.0)
        (own_list seat.old) (own_list seat.new)) }
    ensures no_memory { OnErr result
        (RefusedCalls query.now 0 (own_list seat.old) (own_list seat.new)) }
{
    match look_up(rt, alloc, seat, query, 0)? {
        Found::Hit { value, again } => Ok((value.into_set(), noted(again))),
        Found::Own { again: _ } => {
            gate.at(caller, Moment::Owning);
            match evaluated(alloc, query, probe) {
                Ok((set, same)) => {
                    finish(rt, seat, FilterSet::new(same), 0)?;
                    Ok((set, Note::Computed))
                }
                Err(fault) => {
                    give_up(rt, seat);
                    Err(fault)
                }
            }
        }
    }
}

// The note of a hit.
fn noted(again: bool) -> Note
    ensures { result ≡ (if again then Joined else Hit) }
{
    if again { Note::Joined } else { Note::Hit }
}

// The set of a query, twice.
fn evaluated<P: Reads>(
    alloc: Global,
    query: &Query,
    probe: &mut P,
) -> Result<(Arc<DocSet>, Arc<DocSet>), NoMemory>
    ensures kept { KeptSpec P.view P.terms P.counted probe.old probe.new }
    ensures set { IfOk result (λ r. arc_value r.0 ≡ answer query.now (P.view probe.old)) }
    ensures same { IfOk result (λ r. arc_value r.1 ≡ answer query.now (P.view probe.old)) }
    ensures asked { IfOk result (λ _. Asks (out-Query query.now)
        (P.counted probe.old).postings (P.counted probe.new).postings) }
{
    let set = Arc::new(alloc, eval(alloc, probe, query)?)?;
    let same = Arc::clone(&set)?;
    Ok((set, same))
}
