//! Filters that are evaluated anew.
ghost use Rattle.std.specs.Prelude.{◌≡◌, ◌≤◌, ◌+◌, None, length};
ghost use Rattle.query_eval.specs.Kept.{Kept};
ghost use Rattle.view_cells.specs.Seats.{own_list, view_of};
ghost use Rattle.shared_cells.specs.Seated.{IsBack, IsPlaced, owned_key};
ghost use Rattle.autowarm.specs.Steps.{AreDone, FilterStep};

use crate::keys::MOST_KEYS;
use crate::tally::Tally;
use field_schema::NoMemory;
use query_tree::Query;
use rt_edge::OpenGate;
use search_model::Note;
use searcher_cells::{FilterSet, set_of_filter};
use segment_postings::Reads;
use shared_cells::Cell;
use std::alloc::Global;
use std::sync::Wait;
use view_cells::Seat;

// Filters, one after another.
pub(crate) fn filters_anew<P: Reads, R: Wait>(
    rt: &R,
    alloc: Global,
    seat: &mut Seat<Cell<FilterSet>>,
    keys: &[Query],
    probe: &mut P,
) -> Tally
    requires placed { IsPlaced (λ v. v.seats) seat.old }
    requires owns { owned_key seat.old ≡ None }
    requires view { P.view probe.old ≡ (view_of seat.old).view }
    requires few { length keys.now ≤ MOST_KEYS }
    ensures back { IsBack seat.old seat.new }
    ensures owns { owned_key seat.new ≡ None }
    ensures kept { Kept P.view P.terms P.counted probe.old probe.new }
    ensures few { result.computed + result.refused ≤ MOST_KEYS }
    ensures done { AreDone (FilterStep (P.view probe.old)) keys.now
        (own_list seat.old) (own_list seat.new) result.computed result.refused }
{
    let mut tally = Tally::NONE;
    for key in keys {
        let done = filter_anew(rt, alloc, seat, key, probe);
        tally = tally.with(done);
    }
    tally
}

// One filter. It is evaluated unless it is there already.
fn filter_anew<P: Reads, R: Wait>(
    rt: &R,
    alloc: Global,
    seat: &mut Seat<Cell<FilterSet>>,
    key: &Query,
    probe: &mut P,
) -> Result<Note, NoMemory>
    requires placed { IsPlaced (λ v. v.seats) seat.old }
    requires owns { owned_key seat.old ≡ None }
    requires view { P.view probe.old ≡ (view_of seat.old).view }
    ensures back { IsBack seat.old seat.new }
    ensures owns { owned_key seat.new ≡ None }
    ensures kept { Kept P.view P.terms P.counted probe.old probe.new }
    ensures step { FilterStep (P.view probe.old) key.now result
        (own_list seat.old) (own_list seat.new) }
{
    let (_set, note) = set_of_filter(rt, alloc, seat, key, probe, &OpenGate, 0)?;
    Ok(note)
}
