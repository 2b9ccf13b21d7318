//! Results that are made anew.
ghost use Rattle.std.specs.Prelude.{◌≡◌, ◌≤◌, ◌+◌, length};
ghost use Rattle.view_cells.specs.Seats.{own_list};
ghost use Rattle.searcher_core.specs.Seating.{AreSameSeats, AreSeatsOf};
ghost use Rattle.autowarm.specs.Steps.{AreDone, ResultStep};

use crate::keys::MOST_KEYS;
use crate::request::request_of;
use crate::tally::Tally;
use field_schema::NoMemory;
use result_cache::ResultKey;
use rt_edge::OpenGate;
use search_model::Note;
use searcher_core::{Searcher, Seats, serve};
use segment_postings::Reads;
use std::alloc::Global;
use std::sync::Wait;

// Results, one after another.
pub(crate) fn results_anew<P: Reads, R: Wait>(
    rt: &R,
    alloc: Global,
    searcher: &Searcher,
    seats: &mut Seats,
    keys: &[ResultKey],
    probe: &mut P,
) -> Tally
    requires door { AreSeatsOf searcher.now seats.old }
    requires view { P.view probe.old ≡ searcher.now.view }
    requires few { length keys.now ≤ MOST_KEYS }
    ensures door { AreSameSeats seats.old seats.new }
    ensures few { result.computed + result.refused ≤ MOST_KEYS }
    ensures done { AreDone (ResultStep searcher.now) keys.now
        (own_list seats.old.results) (own_list seats.new.results) result.computed result.refused }
    ensures filters { own_list seats.new.filters ≡ own_list seats.old.filters }
    ensures documents { own_list seats.new.documents ≡ own_list seats.old.documents }
    ensures view { P.view probe.new ≡ P.view probe.old }
    ensures terms { P.terms probe.new ≡ P.terms probe.old }
{
    let mut tally = Tally::NONE;
    for key in keys {
        let done = result_anew(rt, alloc, searcher, seats, key, probe);
        tally = tally.with(done);
    }
    tally
}

// One result. It is made unless it is there already. Its filters are evaluated without their cache, and no document is looked up.
fn result_anew<P: Reads, R: Wait>(
    rt: &R,
    alloc: Global,
    searcher: &Searcher,
    seats: &mut Seats,
    key: &ResultKey,
    probe: &mut P,
) -> Result<Note, NoMemory>
    requires door { AreSeatsOf searcher.now seats.old }
    requires view { P.view probe.old ≡ searcher.now.view }
    ensures door { AreSameSeats seats.old seats.new }
    ensures step { ResultStep searcher.now key.now result
        (own_list seats.old.results) (own_list seats.new.results) }
    ensures filters { own_list seats.new.filters ≡ own_list seats.old.filters }
    ensures documents { own_list seats.new.documents ≡ own_list seats.old.documents }
    ensures view { P.view probe.new ≡ P.view probe.old }
    ensures terms { P.terms probe.new ≡ P.terms probe.old }
{
    let request = request_of(alloc, key)?;
    let served = serve(rt, alloc, searcher, seats, &request, probe, &OpenGate, 0)?;
    Ok(served.result)
}
