ghost use Rattle.std.specs.Prelude.{◌≡◌, IfOk, OnErr, drop, length, map, take};
ghost use Rattle.std.specs.Arc.{arc_value};
ghost use Rattle.searcher_core.specs.Evaluated.{ReadsAsNoted};
ghost use Rattle.searcher_core.specs.Noting.{IsNoted};
ghost use Rattle.searcher_core.specs.Searches.{hits_of};
ghost use Rattle.searcher_core.specs.Seating.{AreSameSeats, AreSeatsOf};
ghost use Rattle.searcher_core.specs.Serving.{HasRefused, HasServed};

use crate::page::{documents, page_of};
use crate::results::result_of;
use crate::searcher::Searcher;
use crate::seats::Seats;
use crate::served::Served;
use field_schema::NoMemory;
use request_form::Request;
use rt_edge::Gate;
use segment_postings::Reads;
use sqlite_items::Items;
use std::alloc::Global;
use std::sync::Wait;

/// Serves a request on the view of a searcher, from its caches where these have what is asked for.
///
/// `found` and `docs` are those of an evaluation without caches. `searcher` and `seats` are the fields of one door, and
/// `probe` reads that searcher's view. The gate is told of the moments at which the caller `caller` owns a key.
///
/// 1. Unless the main query has `cache=false`, the result is looked up under the query, the set of filters and the sort.
/// 2. All filters without `cache=false` are looked up in their order; those that are not there are evaluated and kept.
/// 3. The live documents and these sets are intersected, and unless nothing is left the main query is evaluated.
/// 4. The filters with `cache=false` are evaluated by ascending cost, ties in their order, until nothing is left.
/// 5. The result counts what is found and lists the first of it: the least multiple of the window that reaches to the
///    end of the page. It is kept unless it lists more documents than `most_docs`.
/// 6. The documents of the page are looked up, and those that are not there are read and kept.
///
/// Where the result was there already, no postings and no sort values are read, and of the view only the documents that
/// the document cache lacks. This is what Solr's guide says of `filterCache`, `queryResultCache`, `documentCache`,
/// `queryResultWindowSize` and `queryResultMaxDocsCached`.
///
/// Any number of callers may be served at the same time, each through a door of its own. While another one computes the
/// result or a filter that is asked for, a caller waits for that one and then has it from the cache. A caller that computes
/// holds no cache meanwhile.
///
/// Fails only for want of memory. Then no key is owned, and the caches keep what they were given before. It costs a
/// look-up for each query and for each document of the page, the evaluations and the order where the result wasn't
/// there, and the page.
pub fn serve<P: Reads, R: Wait, G: Gate>(
    rt: &R,
    alloc: Global,
    searcher: &Searcher,
    seats: &mut Seats,
    request: &Request,
    probe: &mut P,
    gate: &G,
    caller: u32,
) -> Result<Served, NoMemory>
    requires door { AreSeatsOf searcher.now seats.old }
    requires view { P.view probe.old ≡ searcher.now.view }
    ensures door { AreSameSeats seats.old seats.new }
    ensures found { IfOk result (λ s. s.found ≡ length (hits_of searcher.now.view request.now)) }
    ensures docs { IfOk result (λ s. map arc_value s.docs.items
        ≡ take request.now.rows (drop request.now.start (hits_of searcher.now.view request.now))) }
    ensures notes { IfOk result (λ s. IsNoted request.now s) }
    ensures reads { IfOk result (λ s. ReadsAsNoted searcher.now.view request.now s
        (P.counted probe.old) (P.counted probe.new)) }
    ensures calls { IfOk result (λ s. HasServed searcher.now request.now s seats.old seats.new) }
    ensures no_memory { OnErr result (HasRefused searcher.now request.now seats.old seats.new) }
    ensures view { P.view probe.new ≡ P.view probe.old }
    ensures terms { P.terms probe.new ≡ P.terms probe.old }
{
    // What is known of a view is known from here on: its documents' numbers ascend.
    let _live = probe.live();
    let sizes = searcher.sizes();
    let given = result_of(rt, alloc, sizes, seats, request, probe, gate, caller)?;
    let numbers = page_of(given.entry.ids.get(), request.start, request.rows);
    let documents_seat = &mut seats.documents;
    let (docs, doc_hits) = documents(rt, alloc, documents_seat, numbers, probe)?;
    Ok(Served {
        found: given.entry.found,
        docs,
        result: given.result,
        filters: Items::from_vec(given.filters),
        doc_hits,
    })
}
