ghost use Rattle.std.specs.Prelude.{◌≡◌, ◌+◌, ◌<◌, ◌≤◌, ◌^◌, IfOk, OnOk, OnErr};
ghost use Rattle.doc_sets.specs.declared.TheConstants.{MAX_DOCS};
ghost use Rattle.search_model.specs.Live.{added, after, nothing};
ghost use Rattle.searcher_core.specs.Shows.{AreSizes};
ghost use Rattle.run_laws.specs.CallReadings.{change_by};
ghost use Rattle.client_runner.specs.Rooms.{HasPlace, HasRoom, IsFirst, StaysReady};
ghost use Rattle.client_runner.specs.Standings.{acquired, changed, opened, shown_row, standing};
ghost use Rattle.client_runner.specs.Views.{request_view};

use crate::rows::{RequestRow, SearcherRow, Verb};
use crate::serving::Serving;
use doc_model::Doc;
use field_schema::{NoMemory, Text};
use request_form::DeleteForm;
use rt_edge::Gate;
use script_form::Config;
use search_model::{Note, Notes};
use searcher_core::CacheSizes;
use std::alloc::Global;
use std::sync::Wait;

// A request as its line names it.
#[derive(Clone, Copy)]
pub(crate) struct Head {
    pub(crate) phase: u32,
    pub(crate) client: u32,
    pub(crate) line: u32,
    pub(crate) verb: Verb,
}

// The reply of a row, the numbers in it, and what the caches did for it.
#[derive(Drop)]
pub(crate) struct Reply {
    pub(crate) text: Text,
    pub(crate) code: u32,
    pub(crate) found: u32,
    pub(crate) docs: u32,
    pub(crate) result: Option<Note>,
    pub(crate) filters: Notes,
    pub(crate) doc_hits: u32,
}

impl Head {
    // The row of a request with this reply.
    pub(crate) fn row(
        self,
        place: Option<u64>,
        generation: Option<u32>,
        ticket: Option<u32>,
        reply: Reply,
    ) -> RequestRow
        ensures { request_view result ≡ shown_row self place generation ticket reply }
    {
        RequestRow {
            client: self.client,
            line: self.line,
            verb: self.verb,
            place,
            generation,
            ticket,
            reply: reply.text,
            code: reply.code,
            found: reply.found,
            docs: reply.docs,
            result: reply.result,
            filters: reply.filters,
            doc_hits: reply.doc_hits,
        }
    }
}

// Where a serial run stands: the index, the next place, the rows so far, and the searchers.
#[derive(Drop)]
pub(crate) struct Runner {
    pub(crate) index: Serving,
    pub(crate) place: u64,
    pub(crate) rows: Vec<RequestRow>,
    pub(crate) earlier: Vec<SearcherRow>,
    pub(crate) current: SearcherRow,
}

impl Runner {
    // Before the first request. Where the first searcher is listened to while it serves, its listeners have acquired it.
    pub(crate) fn new(alloc: Global, sizes: CacheSizes, listened: bool) -> Result<Runner, NoMemory>
        requires { AreSizes sizes }
        ensures { IfOk result (IsFirst listened) }
    {
        Ok(Runner {
            index: Serving::new(alloc, sizes)?,
            place: 2,
            rows: Vec::new(alloc),
            earlier: Vec::new(alloc),
            current: SearcherRow {
                generation: 1,
                opened: 0,
                ended: 1,
                registered: true,
                acquired: u32::from(listened),
                from: if listened { Some((1, 0)) } else { None },
            },
        })
    }

    // Adds a document, at the place that is given. After want of memory all stands as before.
    pub(crate) fn add(&mut self, alloc: Global, doc: Doc) -> Result<u64, NoMemory>
        requires place { HasPlace self.old }
        requires number { self.old.index.numbers < MAX_DOCS }
        ensures place { IfOk result (λ place. place ≡ self.old.place) }
        ensures ok { OnOk result (standing self.new ≡ changed (added doc) (standing self.old)) }
        ensures ready { StaysReady self.old self.new }
        ensures err { OnErr result (standing self.new ≡ standing self.old) }
    {
        self.index.add(alloc, doc)?;
        Ok(self.take_place())
    }

    // Takes away what a delete names, at the place that is given. After want of memory all stands as before.
    pub(crate) fn remove(&mut self, alloc: Global, form: &DeleteForm) -> Result<u64, NoMemory>
        requires { HasPlace self.old }
        ensures place { IfOk result (λ place. place ≡ self.old.place) }
        ensures ok { OnOk result (standing self.new ≡ changed (change_by form.now) (standing self.old)) }
        ensures ready { StaysReady self.old self.new }
        ensures err { OnErr result (standing self.new ≡ standing self.old) }
    {
        take_away(&mut self.index, alloc, form)?;
        Ok(self.take_place())
    }

    // Takes the next place, which is given.
    pub(crate) fn take_place(&mut self) -> u64
        requires { HasPlace self.old }
        ensures place { result ≡ self.old.place }
        ensures taken { standing self.new ≡ changed nothing (standing self.old) }
        ensures index { self.new.index ≡ self.old.index }
        ensures ready { StaysReady self.old self.new }
    {
        let place = self.place;
        self.place += 1;
        place
    }

    // Opens the next searcher on the documents as they stand, warms it from the current one and registers it; gives the
    // place of the opening. After want of memory all stands as before.
    pub(crate) fn open<R: Wait, G: Gate>(
        &mut self,
        rt: &R,
        alloc: Global,
        config: &Config,
        gate: &G,
        client: u32,
    ) -> Result<u64, NoMemory>
        requires { HasRoom 1 self.old }
        ensures place { IfOk result (λ place. place ≡ self.old.place) }
        ensures ok { OnOk result (standing self.new ≡ opened (standing self.old)) }
        ensures err { OnErr result (standing self.new ≡ standing self.old) }
        ensures ready { StaysReady self.old self.new }
    {
        let mut last = self.current;
        let ticket = last.acquired;
        last.acquired += 1;
        self.earlier.reserve(1)?;
        self.index.open(rt, alloc, config, gate, client)?;
        self.earlier.push(last)?;
        let place = self.place;
        self.current = SearcherRow {
            generation: last.generation + 1,
            opened: place,
            ended: place + 1,
            registered: true,
            acquired: 0,
            from: Some((last.generation, ticket)),
        };
        self.place += 2;
        Ok(place)
    }

    // Acquires the current searcher, and gives the ticket.
    pub(crate) fn acquire(&mut self) -> u32
        requires { self.old.current.acquired + 1 < 2 ^ 32 }
        ensures ticket { result ≡ self.old.current.acquired }
        ensures acquired { standing self.new ≡ acquired (standing self.old) }
        ensures ready { StaysReady self.old self.new }
    {
        let ticket = self.current.acquired;
        self.current.acquired += 1;
        ticket
    }
}

// Takes away what a delete names. After want of memory all stands as before.
fn take_away(index: &mut Serving, alloc: Global, form: &DeleteForm) -> Result<(), NoMemory>
    ensures ok { OnOk result (index.new.docs ≡ after index.old.docs (change_by form.now)) }
    ensures err { OnErr result (index.new.docs ≡ index.old.docs) }
    ensures served { index.new.served ≡ index.old.served }
    ensures numbers { index.new.numbers ≤ index.old.numbers }
{
    match form {
        DeleteForm::Id(id) => index.delete_id(alloc, id.get()),
        DeleteForm::Query(query) => index.delete_query(alloc, query),
    }
}
