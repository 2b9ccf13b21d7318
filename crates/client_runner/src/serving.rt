//! The index of a serial run, and the door of the searcher that serves.
ghost use Rattle.std.specs.Prelude.{◌≡◌, ◌<◌, ◌≤◌, ◌+◌, [], OnOk, OnErr, IfOk, drop, length, map, take};
ghost use Rattle.std.specs.Arc.{arc_value};
ghost use Rattle.doc_sets.specs.declared.TheConstants.{MAX_DOCS};
ghost use Rattle.search_model.specs.Answer.{hits};
ghost use Rattle.search_model.specs.Live.{added, after, deleted_id, deleted_query};
ghost use Rattle.searcher_core.specs.Noting.{IsNoted};
ghost use Rattle.searcher_core.specs.Searches.{queries_of};
ghost use Rattle.searcher_core.specs.Shows.{AreSizes};
ghost use Rattle.segment_postings.specs.Numbered.{docs};
ghost use Rattle.client_runner.specs.Doors.{IsDoorTo, IsOnlyDoor, IsSameDoor};
ghost use Rattle.client_runner.specs.Warmings.{IsWarmedBy, count_of, plan_of};

use autowarm::{WarmCount, WarmPlan, listen, warm};
use doc_model::Doc;
use field_schema::NoMemory;
use query_tree::Query;
use request_form::Request;
use rt_edge::Gate;
use script_form::{Config, WarmSetting};
use searcher_core::{CacheSizes, Door, Searcher, Served, serve};
use segment_postings::{Probe, View};
use served_index::Index;
use std::alloc::Global;
use std::marker::Model;
use std::sync::{Arc, Wait};

// The index, and a door to the searcher that sees its current view. Contracts see the index.
#[derive(Drop)]
pub(crate) struct Serving {
    index: Index,
    door: Door,
}

impl Model for Serving {
    ghost use Rattle.served_index.specs.IndexState.{IndexState};
    ghost use Rattle.client_runner.specs.Doors.{IsDoorTo};

    ghost Value = { IndexState };

    ghost view = { λ s. s.index };

    ghost invariant = { λ s. IsDoorTo s.index.served s.door };
}

impl Serving {
    // No document.
    pub(crate) fn new(alloc: Global, sizes: CacheSizes) -> Result<Serving, NoMemory>
        requires { AreSizes sizes }
        ensures docs { IfOk result (λ s. s.docs ≡ []) }
        ensures served { IfOk result (λ s. s.served ≡ []) }
        ensures numbers { IfOk result (λ s. s.numbers ≡ 0) }
    {
        let index = Index::new(alloc)?;
        let view = Arc::clone(index.view())?;
        let door = door_to(alloc, view, sizes)?;
        Ok(Serving { index, door })
    }

    // Adds a document, last, in place of the one with its unique key.
    pub(crate) fn add(&mut self, alloc: Global, doc: Doc) -> Result<(), NoMemory>
        requires room { self.old.numbers < MAX_DOCS }
        ensures ok { OnOk result (self.new.docs ≡ after self.old.docs (added doc)) }
        ensures err { OnErr result (self.new.docs ≡ self.old.docs) }
        ensures served { self.new.served ≡ self.old.served }
        ensures numbers { self.new.numbers ≤ self.old.numbers + 1 }
    {
        let doc = Arc::new(alloc, doc)?;
        self.index.add(alloc, doc)
    }

    // Deletes the document with a unique key, if there is one.
    pub(crate) fn delete_id(&mut self, alloc: Global, id: &str) -> Result<(), NoMemory>
        ensures ok { OnOk result (self.new.docs ≡ after self.old.docs (deleted_id id.now)) }
        ensures err { OnErr result (self.new.docs ≡ self.old.docs) }
        ensures served { self.new.served ≡ self.old.served }
        ensures numbers { self.new.numbers ≤ self.old.numbers }
    {
        self.index.delete_id(alloc, id)
    }

    // Deletes each document that a query matches.
    pub(crate) fn delete_query(&mut self, alloc: Global, query: &Query) -> Result<(), NoMemory>
        ensures ok { OnOk result (self.new.docs ≡ after self.old.docs (deleted_query query.now)) }
        ensures err { OnErr result (self.new.docs ≡ self.old.docs) }
        ensures served { self.new.served ≡ self.old.served }
        ensures numbers { self.new.numbers ≤ self.old.numbers }
    {
        self.index.delete_query(alloc, query)
    }

    // Opens a searcher of the same sizes on the documents as they stand. It is warmed from the caches of the one before
    // it and serves its listeners, and is then the one that serves.
    pub(crate) fn open<R: Wait, G: Gate>(
        &mut self,
        rt: &R,
        alloc: Global,
        config: &Config,
        gate: &G,
        client: u32,
    ) -> Result<(), NoMemory>
        ensures ok { OnOk result (self.new.served ≡ self.old.docs) }
        ensures err { OnErr result (self.new.served ≡ self.old.served) }
        ensures docs { self.new.docs ≡ self.old.docs }
        ensures numbers { self.new.numbers ≤ self.old.numbers }
    {
        let view = self.index.next_view(alloc)?;
        let seen = Arc::clone(&view)?;
        let door = warmed(rt, alloc, &mut self.door, seen, config, gate, client)?;
        self.index.go_on(alloc, view);
        self.door = door;
        Ok(())
    }

    // Has the current searcher serve its listeners' requests.
    pub(crate) fn listen<R: Wait, G: Gate>(
        &mut self,
        rt: &R,
        alloc: Global,
        requests: &[Request],
        gate: &G,
        caller: u32,
    )
        ensures { self.new ≡ self.old }
    {
        let Door { searcher, seats } = &mut self.door;
        let mut probe = Probe::new(searcher.view());
        listen(
            rt, alloc, searcher, seats, requests, &mut probe, gate, caller,
        );
    }

    // Serves a request from the current searcher.
    pub(crate) fn serve<R: Wait, G: Gate>(
        &mut self,
        rt: &R,
        alloc: Global,
        request: &Request,
        gate: &G,
        client: u32,
    ) -> Result<Served, NoMemory>
        ensures found { IfOk result (λ s. s.found ≡ length (hits self.old.served
            request.now.q (queries_of request.now.filters) request.now.sort)) }
        ensures docs { IfOk result (λ s. map arc_value s.docs.items
            ≡ take request.now.rows (drop request.now.start (hits self.old.served
            request.now.q (queries_of request.now.filters) request.now.sort))) }
        ensures notes { IfOk result (λ s. IsNoted request.now s) }
        ensures stays { self.new ≡ self.old }
    {
        let Door { searcher, seats } = &mut self.door;
        let mut probe = Probe::new(searcher.view());
        serve(
            rt, alloc, searcher, seats, request, &mut probe, gate, client,
        )
    }
}

// A door to a new searcher of this view, whose caches keep nothing yet.
fn door_to(alloc: Global, view: Arc<View>, sizes: CacheSizes) -> Result<Door, NoMemory>
    requires { AreSizes sizes }
    ensures { IfOk result (IsOnlyDoor (arc_value view).seen sizes) }
{
    let doors = Searcher::new(alloc, view, sizes, 1)?;
    let Some(door) = doors.into_iter().next() else {
        unreachable!()
    };
    Ok(door)
}

// A door to a new searcher of this view, of the sizes of an old one. It was warmed from the old one's caches, and then
// served its listeners.
fn warmed<R: Wait, G: Gate>(
    rt: &R,
    alloc: Global,
    old: &mut Door,
    view: Arc<View>,
    config: &Config,
    gate: &G,
    caller: u32,
) -> Result<Door, NoMemory>
    ensures old { IsSameDoor old.old old.new }
    ensures door { IfOk result (IsDoorTo (docs (arc_value view).seen)) }
    ensures warmed { IfOk result (IsWarmedBy config.now old.old.seats old.new.seats) }
{
    let mut door = door_to(alloc, view, old.searcher.sizes())?;
    let Door { searcher, seats } = &mut door;
    let mut probe = Probe::new(searcher.view());
    let plan = plan_of(config);
    warm(
        rt,
        alloc,
        &mut old.seats,
        searcher,
        seats,
        &plan,
        &mut probe,
    );
    let requests = config.fresh.as_slice();
    listen(
        rt, alloc, searcher, seats, requests, &mut probe, gate, caller,
    );
    Ok(door)
}

// How many entries of each cache are regenerated in a new searcher.
fn plan_of(config: &Config) -> WarmPlan
    ensures { result ≡ plan_of config.now }
{
    WarmPlan {
        filters: count_of(config.filter_warm),
        results: count_of(config.result_warm),
    }
}

fn count_of(setting: WarmSetting) -> WarmCount
    ensures { result ≡ count_of setting }
{
    if setting.percent {
        WarmCount::Percent(setting.number)
    } else {
        WarmCount::Count(setting.number)
    }
}
