ghost use Rattle.std.specs.Prelude.{◌≡◌, IfOk, OnErr, Some, if◌then◌else◌};
ghost use Rattle.std.specs.Arc.{arc_value};
ghost use Rattle.cache_traces.specs.declared.store_act.StoreAct.TheVariants.{Put};
ghost use Rattle.segment_postings.specs.Numbered.{doc_at, IsLive};
ghost use Rattle.segment_postings.specs.Terms.{raised};
ghost use Rattle.view_cells.specs.Seats.{IsIdle, view_of, own_list};
ghost use Rattle.shared_cells.specs.Lists.{GoesOnBy};
ghost use Rattle.shared_cells.specs.Seated.{IsBack};
ghost use Rattle.searcher_cells.specs.Calls.{DocumentCalls, RefusedDocument};
ghost use Rattle.searcher_cells.specs.Sights.{values_of};

use crate::document_value::DocumentValue;
use doc_model::Doc;
use doc_sets::DocNo;
use field_schema::NoMemory;
use segment_postings::Reads;
use shared_cells::{StoreCell, fetch, put};
use std::sync::{Arc, Wait};
use view_cells::Seat;

/// A document of the view by its number, and whether it was kept. One that was not is read, and kept from then on.
///
/// It waits for the store, and holds it for a look-up and a put alone. Fails only for want of memory.
pub fn document<P: Reads, R: Wait>(
    rt: &R,
    seat: &mut Seat<StoreCell<DocumentValue>>,
    number: DocNo,
    probe: &mut P,
) -> Result<(Arc<Doc>, bool), NoMemory>
    requires idle { IsIdle seat.old }
    requires live { IsLive (P.view probe.old) number }
    requires view { P.view probe.old ≡ (view_of seat.old).view }
    ensures back { IsBack seat.old seat.new }
    ensures doc { IfOk result (λ r. doc_at (P.view probe.old) number ≡ Some (arc_value r.0)) }
    ensures list { IfOk result (λ r. DocumentCalls number r.1 (arc_value r.0)
        (own_list seat.old) (own_list seat.new)) }
    ensures no_memory { OnErr result
        (RefusedDocument number (own_list seat.old) (own_list seat.new)) }
    ensures stored { IfOk result (λ r. (P.counted probe.new).stored
        ≡ (if r.1 then (P.counted probe.old).stored else raised (P.counted probe.old).stored)) }
    ensures view { P.view probe.new ≡ P.view probe.old }
    ensures terms { P.terms probe.new ≡ P.terms probe.old }
    ensures postings { (P.counted probe.new).postings ≡ (P.counted probe.old).postings }
    ensures values { (P.counted probe.new).values ≡ (P.counted probe.old).values }
{
    match fetch(rt, seat, number)? {
        Some(value) => Ok((value.into_doc(), true)),
        None => {
            let doc = read(rt, seat, number, probe)?;
            Ok((doc, false))
        }
    }
}

// A document that is not kept: it is read, and kept from then on.
fn read<P: Reads, R: Wait>(
    rt: &R,
    seat: &mut Seat<StoreCell<DocumentValue>>,
    number: DocNo,
    probe: &mut P,
) -> Result<Arc<Doc>, NoMemory>
    requires idle { IsIdle seat.old }
    requires live { IsLive (P.view probe.old) number }
    requires view { P.view probe.old ≡ (view_of seat.old).view }
    ensures back { IsBack seat.old seat.new }
    ensures doc { IfOk result (λ d. doc_at (P.view probe.old) number ≡ Some (arc_value d)) }
    ensures list { IfOk result (λ d. GoesOnBy (Put number (values_of (arc_value d)))
        (own_list seat.old) (own_list seat.new)) }
    ensures list_stays { OnErr result (own_list seat.new ≡ own_list seat.old) }
    ensures stored { (P.counted probe.new).stored ≡ raised (P.counted probe.old).stored }
    ensures view { P.view probe.new ≡ P.view probe.old }
    ensures terms { P.terms probe.new ≡ P.terms probe.old }
    ensures postings { (P.counted probe.new).postings ≡ (P.counted probe.old).postings }
    ensures values { (P.counted probe.new).values ≡ (P.counted probe.old).values }
{
    let doc = probe.stored(number)?;
    let kept = Arc::clone(&doc)?;
    put(rt, seat, number, DocumentValue::new(kept))?;
    Ok(doc)
}
