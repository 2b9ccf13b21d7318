//! What a view is asked.
ghost use Rattle.std.specs.Prelude.{IsTrue, IfOk};
ghost use Rattle.segment_postings.specs.Numbered.{IsLive};
ghost use Rattle.sort_window.specs.First.{AreLive};

use crate::reading::tell_key;
use doc_model::Doc;
use doc_sets::{DocNo, DocSet};
use field_schema::{FieldNo, Key, NoMemory};
use query_eval::{eval, matches};
use query_tree::{Query, Sort};
use segment_postings::{Probe, Reads, View};
use sort_window::first_n;
use std::alloc::Global;
use std::sync::Arc;
use std::test::Fail;

fn is_live<'a>(probe: &Probe<'a>, doc: DocNo) -> bool
    ensures { IsTrue result → IsLive (⟦<Probe<'a> as Reads>⟧.view probe.now) doc }
{
    probe.live().has(doc)
}

// A live document, with its number.
#[derive(Drop)]
struct Numbered {
    number: DocNo,
    doc: Arc<Doc>,
}

// The live documents.
fn live_docs(alloc: Global, view: &View) -> Result<Vec<Numbered>, NoMemory> {
    let mut probe = Probe::new(view);
    let mut docs = Vec::new(alloc);
    for number in 0..view.size() {
        if is_live(&probe, number) {
            let doc = probe.stored(number)?;
            docs.push(Numbered { number, doc })?;
        }
    }
    Ok(docs)
}

// Adds the number of a live document, and its unique key.
fn tell_numbered(
    alloc: Global,
    docs: &[Numbered],
    number: DocNo,
    told: &mut String,
) -> Result<(), NoMemory> {
    told.push_str(format!(in alloc; " {number}:")?.as_str())?;
    for live in docs {
        if live.number == number {
            told.push_str(live.doc.id().get())?;
        }
    }
    Ok(())
}

// How many live documents there are, the size, and how many documents each segment holds.
pub(crate) fn tell_view(alloc: Global, view: &View, told: &mut String) -> Result<(), Fail> {
    let text = format!(in alloc; " {} live below {} in segments of", view.len(), view.size())?;
    told.push_str(text.as_str())?;
    for at in 0..view.segments() {
        told.push_str(format!(in alloc; " {}", view.held(at))?.as_str())?;
    }
    Ok(())
}

// The live documents, each with its number and what a field sorts it by.
pub(crate) fn tell_live(
    alloc: Global,
    view: &View,
    field: FieldNo,
    told: &mut String,
) -> Result<(), Fail> {
    let docs = live_docs(alloc, view)?;
    let mut probe = Probe::new(view);
    for number in 0..view.size() {
        if is_live(&probe, number) {
            let value = probe.value(alloc, number, field)?;
            tell_numbered(alloc, docs.as_slice(), number, told)?;
            if let Some(value) = value {
                told.push_str("=")?;
                tell_key(alloc, &value, told)?;
            }
        }
    }
    Ok(())
}

// The postings of a key.
pub(crate) fn tell_postings(
    alloc: Global,
    view: &View,
    field: FieldNo,
    key: &Key,
    told: &mut String,
) -> Result<(), Fail> {
    let docs = live_docs(alloc, view)?;
    let mut probe = Probe::new(view);
    for posting in probe.postings(alloc, field, key)? {
        tell_numbered(alloc, docs.as_slice(), posting.doc, told)?;
        for (value, token) in posting.places.get() {
            told.push_str(format!(in alloc; " {value}.{token}")?.as_str())?;
        }
        told.push_str(";")?;
    }
    Ok(())
}

// The first three terms from a key on.
pub(crate) fn tell_terms(
    alloc: Global,
    view: &View,
    field: FieldNo,
    from: &Key,
    told: &mut String,
) -> Result<(), Fail> {
    for term in Probe::new(view).terms_from(alloc, field, from, 3)? {
        told.push_str(" ")?;
        tell_key(alloc, &term, told)?;
    }
    Ok(())
}

// How many documents a query finds and which ones; and which ones match by themselves, where these are others.
pub(crate) fn tell_found(
    alloc: Global,
    view: &View,
    query: &Query,
    told: &mut String,
) -> Result<(), Fail> {
    let found = eval(alloc, &mut Probe::new(view), query)?;
    let mut evaluated = String::new(alloc);
    let mut matched = String::new(alloc);
    for live in live_docs(alloc, view)? {
        if found.has(live.number) {
            evaluated.push_str(" ")?;
            evaluated.push_str(live.doc.id().get())?;
        }
        if matches(alloc, &live.doc, query)? {
            matched.push_str(" ")?;
            matched.push_str(live.doc.id().get())?;
        }
    }
    told.push_str(format!(in alloc; " {}:{evaluated}", found.len())?.as_str())?;
    if evaluated.as_str() != matched.as_str() {
        told.push_str(format!(in alloc; ", but these match:{matched}")?.as_str())?;
    }
    Ok(())
}

// How often a query asks for postings or terms.
pub(crate) fn tell_asked(
    alloc: Global,
    view: &View,
    query: &Query,
    told: &mut String,
) -> Result<(), Fail> {
    let mut probe = Probe::new(view);
    let _found = eval(alloc, &mut probe, query)?;
    let count = probe.counts().postings;
    told.push_str(format!(in alloc; " {count}")?.as_str())?;
    Ok(())
}

// The live documents without some.
fn chosen<'a>(alloc: Global, probe: &Probe<'a>, left_out: &DocSet) -> Result<DocSet, NoMemory>
    ensures { IfOk result (λ s. AreLive s (⟦<Probe<'a> as Reads>⟧.view probe.now)) }
{
    let Ok(rest) = probe.live().minus(alloc, left_out) else {
        return Err(NoMemory);
    };
    Ok(rest)
}

// The first documents in the order of a sort, some left out.
pub(crate) fn tell_first(
    alloc: Global,
    view: &View,
    sort: &Sort,
    n: u64,
    left_out: &DocSet,
    told: &mut String,
) -> Result<(), Fail> {
    let docs = live_docs(alloc, view)?;
    let mut probe = Probe::new(view);
    let set = chosen(alloc, &probe, left_out)?;
    let first = first_n(alloc, &mut probe, &set, sort, n)?;
    for number in first.get() {
        tell_numbered(alloc, docs.as_slice(), *number, told)?;
    }
    Ok(())
}
