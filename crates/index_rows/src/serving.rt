//! What an index takes, and what its searchers are asked.
use crate::door::KeptDoor;
use crate::reading;
use doc_model::Doc;
use doc_sets::MAX_DOCS;
use field_schema::{FieldList, Schema};
use query_text::{Op, read_sort};
use request_form::{Filter, Request};
use rt_edge::OpenGate;
use search_model::Note;
use searcher_core::{CacheSizes, Served};
use segment_postings::Counts;
use served_index::Index;
use sqlite_items::Items;
use std::alloc::Global;
use std::sync::{Arc, Wait};
use std::test::Fail;

pub(crate) fn add(
    alloc: Global,
    schema: &Schema,
    index: &mut Index,
    body: &str,
) -> Result<(), Fail> {
    let doc = Doc::read(alloc, schema, body)?;
    if index.numbers() < MAX_DOCS {
        index.add(alloc, Arc::new(alloc, doc)?)?;
        Ok(())
    } else {
        Err(Fail::new("no room"))
    }
}

pub(crate) fn delete_query(
    alloc: Global,
    schema: &Schema,
    index: &mut Index,
    text: &str,
) -> Result<(), Fail> {
    let query = reading::query(alloc, schema, Op::Or, text)?;
    index.delete_query(alloc, &query)?;
    Ok(())
}

pub(crate) fn commit(alloc: Global, index: &mut Index) -> Result<(), Fail> {
    let view = index.next_view(alloc)?;
    index.go_on(alloc, view);
    Ok(())
}

// A door with the sizes of a row to a searcher of the index's view.
pub(crate) fn searcher(alloc: Global, index: &Index, row: &str) -> Result<KeptDoor, Fail> {
    let sizes = reading::sizes(row)?;
    Ok(KeptDoor::new(alloc, index.view(), sizes)?)
}

// How many documents a new searcher finds, and those of a page. The row has the start, the rows and the sort, and behind a
// bar each the query and its filters.
pub(crate) fn tell_page<R: Wait>(
    rt: &R,
    alloc: Global,
    schema: &Schema,
    index: &Index,
    row: &str,
    told: &mut String,
) -> Result<(), Fail> {
    let sizes = CacheSizes {
        filters: 512,
        results: 512,
        documents: 512,
        window: 20,
        most_docs: 200,
    };
    let request = page_request(alloc, schema, row)?;
    let (served, _) = KeptDoor::new(alloc, index.view(), sizes)?.serve(
        rt, alloc, &request, &OpenGate, 1,
    )?;
    told.push_str(format!(in alloc; " {}:", served.found)?.as_str())?;
    for doc in served.docs.as_slice() {
        tell_doc(alloc, schema, doc, told)?;
    }
    Ok(())
}

fn page_request(alloc: Global, schema: &Schema, row: &str) -> Result<Request, Fail> {
    let (start, rest) = reading::first_word(row);
    let (rows, rest) = reading::first_word(rest);
    let mut parts = rest.split('|');
    let sort = read_sort(alloc, schema, parts.next().unwrap_or(""))?;
    let text = parts.next().ok_or("no query")?;
    let q = reading::query(alloc, schema, Op::Or, text.trim())?;
    let mut filters = Vec::new(alloc);
    for part in parts {
        filters.push(Filter {
            query: reading::query(alloc, schema, Op::Or, part.trim())?,
            cached: true,
            cost: 0,
        })?;
    }
    Ok(Request {
        q,
        q_cached: true,
        filters: Items::from_vec(filters),
        sort,
        start: start.parse::<u32>()?,
        rows: rows.parse::<u32>()?,
        fields: FieldList::All,
    })
}

// Adds a document's unique key, and its category where it has one.
fn tell_doc(alloc: Global, schema: &Schema, doc: &Doc, told: &mut String) -> Result<(), Fail> {
    told.push_str(" ")?;
    told.push_str(doc.id().get())?;
    if let Some(category) = doc
        .values(schema.field("cat").ok_or("no category")?)
        .first()
    {
        told.push_str("=")?;
        reading::tell_key(alloc, category, told)?;
    }
    Ok(())
}

fn note_text(note: Note) -> &'static str {
    match note {
        Note::Hit => "hit",
        Note::Joined => "joined",
        Note::Computed => "computed",
        Note::Bypassed => "bypassed",
    }
}

// Adds how many documents were found, and those of the page.
fn tell_ids(alloc: Global, served: &Served, told: &mut String) -> Result<(), Fail> {
    told.push_str(format!(in alloc; " {}:", served.found)?.as_str())?;
    for doc in served.docs.as_slice() {
        told.push_str(" ")?;
        told.push_str(doc.id().get())?;
    }
    Ok(())
}

// Adds how many documents were found and those of the page; and what the caches did for the result, for the filters and
// for the documents.
pub(crate) fn tell_served(alloc: Global, served: &Served, told: &mut String) -> Result<(), Fail> {
    tell_ids(alloc, served, told)?;
    told.push_str("; ")?;
    told.push_str(note_text(served.result))?;
    told.push_str(" [")?;
    let mut gap = "";
    for note in served.filters.as_slice() {
        told.push_str(gap)?;
        told.push_str(note_text(*note))?;
        gap = " ";
    }
    told.push_str(format!(in alloc; "] {}", served.doc_hits)?.as_str())?;
    Ok(())
}

// Adds how often the view was read.
pub(crate) fn tell_counts(alloc: Global, counts: Counts, told: &mut String) -> Result<(), Fail> {
    let Counts {
        postings,
        values,
        stored,
    } = counts;
    told.push_str(format!(in alloc; "; {postings} {values} {stored}")?.as_str())?;
    Ok(())
}
