ghost use Rattle.std.specs.Prelude.{◌≡◌, if◌then◌else◌};
ghost use Rattle.searcher_core.specs.Seating.{AreSameSeats, AreSeatsOf};
ghost use Rattle.autowarm.specs.Listening.{AreHeard};

use request_form::Request;
use rt_edge::Gate;
use searcher_core::{Searcher, Seats, serve};
use segment_postings::Reads;
use std::alloc::Global;
use std::sync::Wait;

/// Serves requests in turn, whose answers nobody wants: for what they leave in the caches. Gives how many were served, at
/// most 4,294,967,295.
///
/// `searcher` and `seats` are the fields of one door, and `probe` reads that searcher's view. One for which memory is wanting
/// is left out. It waits and costs as `serve` does for each; the gate is told of the moments at which `caller` owns a key.
pub fn listen<P: Reads, R: Wait, G: Gate>(
    rt: &R,
    alloc: Global,
    searcher: &Searcher,
    seats: &mut Seats,
    requests: &[Request],
    probe: &mut P,
    gate: &G,
    caller: u32,
) -> u32
    requires door { AreSeatsOf searcher.now seats.old }
    requires view { P.view probe.old ≡ searcher.now.view }
    ensures door { AreSameSeats seats.old seats.new }
    ensures heard { AreHeard searcher.now requests.now result seats.old seats.new }
    ensures view { P.view probe.new ≡ P.view probe.old }
    ensures terms { P.terms probe.new ≡ P.terms probe.old }
{
    let mut served = 0u32;
    for request in requests {
        let answer = serve(rt, alloc, searcher, seats, request, probe, gate, caller);
        served = served.saturating_add(counted(answer.is_ok()));
    }
    served
}

// 1 for a request that was served, else 0.
fn counted(served: bool) -> u32
    ensures { result ≡ (if served then 1 else 0) }
{
    u32::from(served)
}
