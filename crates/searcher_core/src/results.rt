//! The result of a request: the one that is kept, or a new one.
ghost use Rattle.std.specs.Prelude.{◌≡◌, ◌≤◌, IfOk, OnErr, None, true, false, if◌then◌else◌};
ghost use Rattle.std.specs.Arc.{arc_value};
ghost use Rattle.request_form.specs.declared.request.Request.{Request};
ghost use Rattle.search_model.specs.declared.notes.Note.TheVariants.{Hit, Joined, Computed};
ghost use Rattle.view_cells.specs.Seats.{IsSameSeat, own_list, view_of};
ghost use Rattle.shared_cells.specs.Seated.{IsBack, IsPlaced, owned_key};
ghost use Rattle.searcher_core.specs.Meeting.{IsEntryFor, IsMade, IsGiven, Stays};
ghost use Rattle.searcher_core.specs.RequestCalls.{FiltersAfter, FiltersCalls, IsCollected, IsKeyOf};
ghost use Rattle.searcher_core.specs.RequestCalls.{RefusedFilters, RefusedResult, ResultActs, ResultCall};
ghost use Rattle.searcher_core.specs.Resting.{IsAtRest};
ghost use Rattle.searcher_core.specs.Searches.{queries_of};
ghost use Rattle.searcher_core.specs.Seating.{AreSameSeats, See};

use crate::filters::cached_sets;
use crate::meeting::{by_cost, collected, common, in_turn, with_main};
use crate::seats::Seats;
use crate::sizes::CacheSizes;
use field_schema::NoMemory;
use query_tree::Queries;
use request_form::{Filter, Request};
use result_cache::{Entry, ResultKey};
use rt_edge::{Gate, Moment};
use search_model::{Note, Notes};
use searcher_cells::{FilterSet, ResultEntry};
use segment_postings::Reads;
use shared_cells::{Cell, Found, finish, give_up, look_up};
use sqlite_items::Items;
use std::alloc::Global;
use std::sync::{Arc, Wait};
use view_cells::Seat;

// A result, with what the result cache did for it and what the filter cache did for the filters.
#[derive(Drop)]
pub(crate) struct Given {
    pub(crate) entry: Arc<Entry>,
    pub(crate) result: Note,
    pub(crate) filters: Vec<Note>,
}

// The result of a request: looked up unless the request may not, and made where it is not there.
pub(crate) fn result_of<P: Reads, R: Wait, G: Gate>(
    rt: &R,
    alloc: Global,
    sizes: CacheSizes,
    seats: &mut Seats,
    request: &Request,
    probe: &mut P,
    gate: &G,
    caller: u32,
) -> Result<Given, NoMemory>
    requires window { 1 ≤ sizes.window }
    requires view { See (P.view probe.old) seats.old }
    ensures seats { AreSameSeats seats.old seats.new }
    ensures documents { own_list seats.new.documents ≡ own_list seats.old.documents }
    ensures stays { Stays P.view P.terms P.counted probe.old probe.new }
    ensures given { IfOk result (IsGiven (P.view probe.old) request.now
        (P.counted probe.old) (P.counted probe.new)) }
    ensures result { IfOk result (λ g. ResultCall (P.view probe.old) sizes request.now g.result
        (own_list seats.old.results) (own_list seats.new.results)) }
    ensures filters { IfOk result (λ g. FiltersAfter (P.view probe.old) request.now g.result
        g.filters.items (own_list seats.old.filters) (own_list seats.new.filters)) }
    ensures no_memory { OnErr result (RefusedResult (P.view probe.old) sizes request.now
        (own_list seats.old.results) (own_list seats.new.results)
        (own_list seats.old.filters) (own_list seats.new.filters)) }
{
    let filters = &mut seats.filters;
    if request.q_cached {
        let results = &mut seats.results;
        looked_up(
            rt, alloc, sizes, results, filters, request, probe, gate, caller,
        )
    } else {
        bypassed(rt, alloc, sizes, filters, request, probe, gate, caller)
    }
}

// The result of a request that goes past the result cache.
fn bypassed<P: Reads, R: Wait, G: Gate>(
    rt: &R,
    alloc: Global,
    sizes: CacheSizes,
    filters: &mut Seat<Cell<FilterSet>>,
    request: &Request,
    probe: &mut P,
    gate: &G,
    caller: u32,
) -> Result<Given, NoMemory>
    requires window { 1 ≤ sizes.window }
    requires past { request.now.q_cached ≡ false }
    requires rest { IsAtRest filters.old }
    requires view { (view_of filters.old).view ≡ P.view probe.old }
    ensures rest { IsAtRest filters.new }
    ensures seat { IsSameSeat filters.old filters.new }
    ensures stays { Stays P.view P.terms P.counted probe.old probe.new }
    ensures given { IfOk result (IsGiven (P.view probe.old) request.now
        (P.counted probe.old) (P.counted probe.new)) }
    ensures result { (l : ResultActs) → IfOk result (λ g.
        ResultCall (P.view probe.old) sizes request.now g.result l l) }
    ensures filters { IfOk result (λ g. FiltersAfter (P.view probe.old) request.now g.result
        g.filters.items (own_list filters.old) (own_list filters.new)) }
    ensures no_memory { (l : ResultActs) → OnErr result (RefusedResult (P.view probe.old) sizes
        request.now l l (own_list filters.old) (own_list filters.new)) }
{
    let (entry, notes) = made(rt, alloc, sizes, filters, request, probe, gate, caller)?;
    let entry = Arc::new(alloc, entry)?;
    Ok(Given {
        entry,
        result: Note::Bypassed,
        filters: notes,
    })
}

// The result of a request that is looked up: it is there, or the seat owns its key until it is made.
fn looked_up<P: Reads, R: Wait, G: Gate>(
    rt: &R,
    alloc: Global,
    sizes: CacheSizes,
    results: &mut Seat<Cell<ResultEntry>>,
    filters: &mut Seat<Cell<FilterSet>>,
    request: &Request,
    probe: &mut P,
    gate: &G,
    caller: u32,
) -> Result<Given, NoMemory>
    requires window { 1 ≤ sizes.window }
    requires may { request.now.q_cached ≡ true }
    requires results { IsAtRest results.old }
    requires filters { IsAtRest filters.old }
    requires results_view { (view_of results.old).view ≡ P.view probe.old }
    requires filters_view { (view_of filters.old).view ≡ P.view probe.old }
    ensures results_rest { IsAtRest results.new }
    ensures filters_rest { IsAtRest filters.new }
    ensures results_seat { IsSameSeat results.old results.new }
    ensures filters_seat { IsSameSeat filters.old filters.new }
    ensures stays { Stays P.view P.terms P.counted probe.old probe.new }
    ensures given { IfOk result (IsGiven (P.view probe.old) request.now
        (P.counted probe.old) (P.counted probe.new)) }
    ensures result { IfOk result (λ g. ResultCall (P.view probe.old) sizes request.now g.result
        (own_list results.old) (own_list results.new)) }
    ensures filters { IfOk result (λ g. FiltersAfter (P.view probe.old) request.now g.result
        g.filters.items (own_list filters.old) (own_list filters.new)) }
    ensures no_memory { OnErr result (RefusedResult (P.view probe.old) sizes request.now
        (own_list results.old) (own_list results.new)
        (own_list filters.old) (own_list filters.new)) }
{
    let key = key_of(alloc, request)?;
    let need = u64::from(request.start) + u64::from(request.rows);
    match look_up(rt, alloc, results, &key, need)? {
        Found::Hit { value, again } => Ok(Given {
            entry: value.into_entry(),
            result: noted(again),
            filters: Vec::new(alloc),
        }),
        Found::Own { again: _ } => {
            gate.at(caller, Moment::Owning);
            match shared(rt, alloc, sizes, filters, request, probe, gate, caller) {
                Ok((given, kept)) => {
                    finish(rt, results, kept, sizes.most_docs)?;
                    Ok(given)
                }
                Err(fault) => {
                    give_up(rt, results);
                    Err(fault)
                }
            }
        }
    }
}

// The note of a hit.
fn noted(again: bool) -> Note
    ensures { result ≡ (if again then Joined else Hit) }
{
    if again { Note::Joined } else { Note::Hit }
}

// The key of the request's result.
fn key_of(alloc: Global, request: &Request) -> Result<ResultKey, NoMemory>
    ensures { IfOk result (IsKeyOf request.now) }
{
    let filters = queries(alloc, request.filters.as_slice())?;
    ResultKey::make(alloc, &request.q, &filters, &request.sort)
}

// Copies of the filters' queries.
fn queries(alloc: Global, filters: &[Filter]) -> Result<Queries, NoMemory>
    ensures { IfOk result (λ qs. qs ≡ queries_of filters.now) }
{
    let mut copies = Vec::with_capacity(alloc, filters.len())?;
    for filter in filters {
        copies.push(filter.query.copy(alloc)?)?;
    }
    Ok(Items::from_vec(copies))
}

// A new result, and the same to be kept.
fn shared<P: Reads, R: Wait, G: Gate>(
    rt: &R,
    alloc: Global,
    sizes: CacheSizes,
    filters: &mut Seat<Cell<FilterSet>>,
    request: &Request,
    probe: &mut P,
    gate: &G,
    caller: u32,
) -> Result<(Given, ResultEntry), NoMemory>
    requires window { 1 ≤ sizes.window }
    requires may { request.now.q_cached ≡ true }
    requires placed { IsPlaced (λ v. v.seats) filters.old }
    requires owns { owned_key filters.old ≡ None }
    requires view { P.view probe.old ≡ (view_of filters.old).view }
    ensures back { IsBack filters.old filters.new }
    ensures owns { owned_key filters.new ≡ None }
    ensures stays { Stays P.view P.terms P.counted probe.old probe.new }
    ensures given { IfOk result (λ r. IsGiven (P.view probe.old) request.now
        (P.counted probe.old) (P.counted probe.new) r.0) }
    ensures note { IfOk result (λ r. r.0.result ≡ Computed) }
    ensures kept { IfOk result (λ r. IsEntryFor (P.view probe.old) request.now r.1) }
    ensures collected { IfOk result (λ r. IsCollected (P.view probe.old) sizes request.now r.1) }
    ensures list { IfOk result (λ r. FiltersCalls (P.view probe.old) request.now.filters
        r.0.filters.items (own_list filters.old) (own_list filters.new)) }
    ensures no_memory { OnErr result (RefusedFilters (P.view probe.old) request.now.filters
        (own_list filters.old) (own_list filters.new)) }
{
    let (entry, notes) = made(rt, alloc, sizes, filters, request, probe, gate, caller)?;
    let entry = Arc::new(alloc, entry)?;
    let kept = ResultEntry::new(Arc::clone(&entry)?);
    let given = Given {
        entry,
        result: Note::Computed,
        filters: notes,
    };
    Ok((given, kept))
}

// A result that is made anew: the filters that may be cached, then the main query, then the other filters by cost.
fn made<P: Reads, R: Wait, G: Gate>(
    rt: &R,
    alloc: Global,
    sizes: CacheSizes,
    filters: &mut Seat<Cell<FilterSet>>,
    request: &Request,
    probe: &mut P,
    gate: &G,
    caller: u32,
) -> Result<(Entry, Vec<Note>), NoMemory>
    requires window { 1 ≤ sizes.window }
    requires placed { IsPlaced (λ v. v.seats) filters.old }
    requires owns { owned_key filters.old ≡ None }
    requires view { P.view probe.old ≡ (view_of filters.old).view }
    ensures back { IsBack filters.old filters.new }
    ensures owns { owned_key filters.new ≡ None }
    ensures stays { Stays P.view P.terms P.counted probe.old probe.new }
    ensures entry { IfOk result (λ r. IsEntryFor (P.view probe.old) request.now r.0) }
    ensures collected { IfOk result (λ r. IsCollected (P.view probe.old) sizes request.now r.0) }
    ensures made { IfOk result (λ r. IsMade (P.view probe.old) request.now
        (P.counted probe.old) (P.counted probe.new) r.1.items) }
    ensures list { IfOk result (λ r. FiltersCalls (P.view probe.old) request.now.filters r.1.items
        (own_list filters.old) (own_list filters.new)) }
    ensures no_memory { OnErr result (RefusedFilters (P.view probe.old) request.now.filters
        (own_list filters.old) (own_list filters.new)) }
{
    // What is known of a view is known from here on: its documents' numbers ascend.
    let _live = probe.live();
    let of_request = request.filters.as_slice();
    let turns = by_cost(alloc, of_request)?;
    let (sets, notes) = cached_sets(rt, alloc, filters, of_request, probe, gate, caller)?;
    let left = common(alloc, sets.as_slice())?;
    let found = with_main(alloc, &request.q, left, probe)?;
    let found = in_turn(alloc, found, turns.as_slice(), probe)?;
    let entry = collected(alloc, request, sizes.window, &found, probe)?;
    Ok((entry, notes))
}
