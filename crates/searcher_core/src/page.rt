//! The documents of a page, by their numbers.
ghost use Rattle.std.specs.Prelude.{◌≡◌, All, ◌-◌, ◌≤◌, ◌<◌, ◌^◌, IfOk, OnErr, drop, length, map, take, if◌then◌else◌};
ghost use Rattle.std.specs.Arc.{arc_value};
ghost use Rattle.segment_postings.specs.Numbered.{IsLive};
ghost use Rattle.view_cells.specs.Seats.{IsIdle, own_list, view_of};
ghost use Rattle.shared_cells.specs.Seated.{IsBack};
ghost use Rattle.searcher_core.specs.Evaluated.{raised_by};
ghost use Rattle.searcher_core.specs.Meeting.{docs_at};
ghost use Rattle.searcher_core.specs.RequestCalls.{PageCalls, RefusedPage};

use doc_model::Doc;
use doc_sets::DocNo;
use field_schema::NoMemory;
use searcher_cells::{DocumentValue, document};
use segment_postings::Reads;
use shared_cells::StoreCell;
use std::alloc::Global;
use std::sync::{Arc, Wait};
use view_cells::Seat;

// The numbers of a page: at most `rows` of them, without the first `start`.
pub(crate) fn page_of(numbers: &[DocNo], start: u32, rows: u32) -> &[DocNo]
    ensures { result.now ≡ take rows (drop start numbers.now) }
{
    let start = numbers.len().min(start as usize);
    let rest = &numbers[start..];
    let rows = rest.len().min(rows as usize);
    &rest[..rows]
}

// The documents of numbers, and how many of them were kept. One that was not is read, and kept from then on.
pub(crate) fn documents<P: Reads, R: Wait>(
    rt: &R,
    alloc: Global,
    seat: &mut Seat<StoreCell<DocumentValue>>,
    numbers: &[DocNo],
    probe: &mut P,
) -> Result<(Vec<Arc<Doc>>, u32), NoMemory>
    requires few { length numbers.now < 2 ^ 32 }
    requires live { All (IsLive (P.view probe.old)) numbers.now }
    requires idle { IsIdle seat.old }
    requires seen { P.view probe.old ≡ (view_of seat.old).view }
    ensures back { IsBack seat.old seat.new }
    ensures docs { IfOk result (λ r. map arc_value r.0.items ≡ docs_at (P.view probe.old) numbers.now) }
    ensures hits { IfOk result (λ r. r.1 ≤ length r.0.items) }
    ensures list { IfOk result (λ r. PageCalls (P.view probe.old) (map arc_value r.0.items) r.1
        (own_list seat.old) (own_list seat.new)) }
    ensures no_memory { OnErr result (RefusedPage (P.view probe.old)
        (docs_at (P.view probe.old) numbers.now) (own_list seat.old) (own_list seat.new)) }
    ensures stored { IfOk result (λ r. (P.counted probe.new).stored
        ≡ raised_by (length r.0.items - r.1) (P.counted probe.old).stored) }
    ensures view { P.view probe.new ≡ P.view probe.old }
    ensures terms { P.terms probe.new ≡ P.terms probe.old }
    ensures postings { (P.counted probe.new).postings ≡ (P.counted probe.old).postings }
    ensures values { (P.counted probe.new).values ≡ (P.counted probe.old).values }
{
    let mut docs = Vec::with_capacity(alloc, numbers.len())?;
    let mut hits = 0;
    for &number in numbers {
        let (doc, hit) = document(rt, seat, number, probe)?;
        let one = counted(hit);
        hits += one;
        docs.push(doc)?;
    }
    Ok((docs, hits))
}

// 1 for a document that was kept, else 0.
fn counted(hit: bool) -> u32
    ensures { result ≡ (if hit then 1 else 0) }
{
    u32::from(hit)
}
