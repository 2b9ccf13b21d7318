ghost use Rattle.std.specs.Prelude.{◌≡◌, ◌<◌, IfOk, OnOk, OnErr, false};
ghost use Rattle.doc_model.specs.ReadDoc.{is_no_memory as is_no_memory_of_doc};
ghost use Rattle.search_model.specs.Messages.{doc_message};
ghost use Rattle.reply_json.specs.Answers.{IsSound};
ghost use Rattle.request_form.specs.Messages.{request_message};
ghost use Rattle.request_form.specs.Requests.{is_no_memory};
ghost use Rattle.search_model.specs.Reply.{accepted, no_memory};
ghost use Rattle.run_laws.specs.CallReadings.{defaults_of};
ghost use Rattle.client_runner.specs.declared.rows.Verb.TheVariants as Verb;
ghost use Rattle.client_runner.specs.Rooms.{HasRoom, StaysReady};
ghost use Rattle.client_runner.specs.Runs.{AnswersBy, Follows};
ghost use Rattle.run_laws.specs.Notes.{IsNotedBy, not_noted};
ghost use Rattle.client_runner.specs.Standings.{IsBare, IsRefusal, Shown, bare_text, call_of, found_by, noted_in, standing};

use crate::rows::{RequestRow, Verb};
use crate::runner::{Head, Reply, Runner};
use crate::serving::Serving;
use doc_model::{Doc, DocFault};
use field_schema::{FieldList, NoMemory};
use reply_json::{Answer, reply_text};
use request_form::{CommitForm, Defaults, DeleteForm, Request, RequestFault};
use rt_edge::Gate;
use script_form::Config;
use sqlite_items::Items;
use std::alloc::Global;
use std::sync::Wait;

// The reply to an answer without documents, for which no cache was asked.
fn bare_reply(alloc: Global, config: &Config, answer: &Answer, code: u32) -> Result<Reply, NoMemory>
    requires { IsSound answer.now }
    ensures { IfOk result (IsBare (bare_text config.now answer.now) code) }
{
    Ok(Reply {
        text: reply_text(alloc, &config.schema, answer, &FieldList::All)?,
        code,
        found: 0,
        docs: 0,
        result: None,
        filters: Items::new(alloc),
        doc_hits: 0,
    })
}

// The reply to an accepted update or commit.
fn accepted_reply(alloc: Global, config: &Config) -> Result<Reply, NoMemory>
    ensures shown { IfOk result (Shown config.now accepted) }
    ensures notes { IfOk result (λ r. noted_in r ≡ not_noted) }
{
    bare_reply(alloc, config, &Answer::Accepted, 0)
}

// The reply to a request for which there was no memory.
fn no_memory_reply(alloc: Global, config: &Config) -> Result<Reply, NoMemory>
    ensures shown { IfOk result (Shown config.now no_memory) }
    ensures notes { IfOk result (λ r. noted_in r ≡ not_noted) }
{
    bare_reply(alloc, config, &Answer::NoMemory, 500)
}

// The row of an add whose document does not read.
fn refused_doc(
    alloc: Global,
    config: &Config,
    head: Head,
    fault: DocFault,
) -> Result<RequestRow, NoMemory>
    ensures fault { OnOk result (is_no_memory_of_doc fault ≡ false) }
    ensures row { IfOk result (IsRefusal config.now head (doc_message fault)) }
{
    if matches!(fault, DocFault::NoMemory) {
        return Err(NoMemory);
    }
    let reply = bare_reply(alloc, config, &Answer::BadDoc(fault), 400)?;
    Ok(head.row(None, None, None, reply))
}

// The row of a request whose parameters do not read.
fn refused_row(
    alloc: Global,
    config: &Config,
    head: Head,
    fault: RequestFault,
) -> Result<RequestRow, NoMemory>
    ensures fault { OnOk result (is_no_memory fault ≡ false) }
    ensures row { IfOk result (IsRefusal config.now head (request_message fault)) }
{
    if matches!(fault, RequestFault::NoMemory) {
        return Err(NoMemory);
    }
    let reply = bare_reply(alloc, config, &Answer::BadRequest(fault), 400)?;
    Ok(head.row(None, None, None, reply))
}

// The reply of a request, from the caches of the current searcher where these have what it asks for.
fn found_reply<R: Wait, G: Gate>(
    rt: &R,
    alloc: Global,
    config: &Config,
    index: &mut Serving,
    request: &Request,
    gate: &G,
    client: u32,
) -> Result<Reply, NoMemory>
    ensures shown { IfOk result (Shown config.now (found_by index.old.served request.now)) }
    ensures notes { IfOk result (λ r. IsNotedBy request.now r.docs (noted_in r)) }
    ensures stays { index.new ≡ index.old }
{
    let served = index.serve(rt, alloc, request, gate, client)?;
    let docs = served.docs.len() as u32;
    let answer = Answer::Found {
        found: served.found,
        start: request.start,
        docs: served.docs,
    };
    Ok(Reply {
        text: reply_text(alloc, &config.schema, &answer, &request.fields)?,
        code: 0,
        found: served.found,
        docs,
        result: Some(served.result),
        filters: served.filters,
        doc_hits: served.doc_hits,
    })
}

/// What the configuration says of requests that do not say it themselves. It costs nothing.
pub fn defaults(config: &Config) -> Defaults
    ensures { result ≡ defaults_of config.now }
{
    Defaults {
        df: config.df,
        most: config.most_clauses,
    }
}

impl Runner {
    // Serves a request in its turn. Where memory is wanting for it, it has the 500 reply and all else stands as before;
    // an error is that not even that reply could be had.
    pub(crate) fn serve<R: Wait, G: Gate>(
        &mut self,
        rt: &R,
        alloc: Global,
        config: &Config,
        gate: &G,
        head: Head,
        body: &str,
    ) -> Result<(), NoMemory>
        requires warming { 0 < config.now.max_warming }
        requires ready { HasRoom 1 self.old }
        ensures follows { OnOk result (Follows config.now (call_of head body.now) (standing self.old) (standing self.new)) }
        ensures ready { OnOk result (StaysReady self.old self.new) }
    {
        self.rows.reserve(1)?;
        let row = match self.answer(rt, alloc, config, gate, head, body) {
            Ok(row) => row,
            Err(NoMemory) => head.row(None, None, None, no_memory_reply(alloc, config)?),
        };
        self.rows.push(row)?;
        Ok(())
    }

    // Does what a request asks for, and gives its row. After want of memory all stands as before.
    fn answer<R: Wait, G: Gate>(
        &mut self,
        rt: &R,
        alloc: Global,
        config: &Config,
        gate: &G,
        head: Head,
        body: &str,
    ) -> Result<RequestRow, NoMemory>
        requires warming { 0 < config.now.max_warming }
        requires ready { HasRoom 1 self.old }
        ensures ok { IfOk result (AnswersBy config.now (call_of head body.now) (standing self.old) (standing self.new)) }
        ensures err { OnErr result (standing self.new ≡ standing self.old) }
        ensures ready { StaysReady self.old self.new }
    {
        match head.verb {
            Verb::Add => self.update(alloc, config, head, body),
            Verb::Delete => self.delete(alloc, config, head, body),
            Verb::Query => self.query(rt, alloc, config, gate, head, body),
            Verb::Commit => self.commit(rt, alloc, config, gate, head, body),
        }
    }

    // Adds a document, or refuses it with its first fault.
    fn update(
        &mut self,
        alloc: Global,
        config: &Config,
        head: Head,
        body: &str,
    ) -> Result<RequestRow, NoMemory>
        requires verb { head.verb ≡ Verb.Add }
        requires ready { HasRoom 1 self.old }
        ensures ok { IfOk result (AnswersBy config.now (call_of head body.now) (standing self.old) (standing self.new)) }
        ensures err { OnErr result (standing self.new ≡ standing self.old) }
        ensures ready { StaysReady self.old self.new }
    {
        match Doc::read(alloc, &config.schema, body) {
            Ok(doc) => {
                let reply = accepted_reply(alloc, config)?;
                let place = self.add(alloc, doc)?;
                Ok(head.row(Some(place), None, None, reply))
            }
            Err(fault) => refused_doc(alloc, config, head, fault),
        }
    }

    // Takes away what a delete names, or refuses it with its first fault.
    fn delete(
        &mut self,
        alloc: Global,
        config: &Config,
        head: Head,
        body: &str,
    ) -> Result<RequestRow, NoMemory>
        requires verb { head.verb ≡ Verb.Delete }
        requires ready { HasRoom 1 self.old }
        ensures ok { IfOk result (AnswersBy config.now (call_of head body.now) (standing self.old) (standing self.new)) }
        ensures err { OnErr result (standing self.new ≡ standing self.old) }
        ensures ready { StaysReady self.old self.new }
    {
        match DeleteForm::read(alloc, &config.schema, &defaults(config), body) {
            Ok(form) => {
                let reply = accepted_reply(alloc, config)?;
                let place = self.remove(alloc, &form)?;
                Ok(head.row(Some(place), None, None, reply))
            }
            Err(fault) => refused_row(alloc, config, head, fault),
        }
    }

    // Answers a query on what the current searcher sees, or refuses it with its first fault.
    fn query<R: Wait, G: Gate>(
        &mut self,
        rt: &R,
        alloc: Global,
        config: &Config,
        gate: &G,
        head: Head,
        body: &str,
    ) -> Result<RequestRow, NoMemory>
        requires verb { head.verb ≡ Verb.Query }
        requires ready { HasRoom 1 self.old }
        ensures ok { IfOk result (AnswersBy config.now (call_of head body.now) (standing self.old) (standing self.new)) }
        ensures err { OnErr result (standing self.new ≡ standing self.old) }
        ensures ready { StaysReady self.old self.new }
    {
        let request = match Request::read(alloc, &config.schema, &defaults(config), body) {
            Ok(request) => request,
            Err(fault) => return refused_row(alloc, config, head, fault),
        };
        let index = &mut self.index;
        let reply = found_reply(rt, alloc, config, index, &request, gate, head.client)?;
        let generation = self.current.generation;
        let ticket = self.acquire();
        Ok(head.row(None, Some(generation), Some(ticket), reply))
    }

    // Opens a searcher for a commit, or takes a place where it opens none; or refuses it with its first fault.
    fn commit<R: Wait, G: Gate>(
        &mut self,
        rt: &R,
        alloc: Global,
        config: &Config,
        gate: &G,
        head: Head,
        body: &str,
    ) -> Result<RequestRow, NoMemory>
        requires verb { head.verb ≡ Verb.Commit }
        requires warming { 0 < config.now.max_warming }
        requires ready { HasRoom 1 self.old }
        ensures ok { IfOk result (AnswersBy config.now (call_of head body.now) (standing self.old) (standing self.new)) }
        ensures err { OnErr result (standing self.new ≡ standing self.old) }
        ensures ready { StaysReady self.old self.new }
    {
        let form = match CommitForm::read(alloc, body) {
            Ok(form) => form,
            Err(fault) => return refused_row(alloc, config, head, fault),
        };
        let reply = accepted_reply(alloc, config)?;
        if !form.opens {
            let place = self.take_place();
            return Ok(head.row(Some(place), None, None, reply));
        }
        let generation = self.current.generation + 1;
        let place = self.open(rt, alloc, config, gate, head.client)?;
        Ok(head.row(Some(place), Some(generation), None, reply))
    }
}
