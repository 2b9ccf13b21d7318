// Four documents, requests for them, and what is answered as a text.
ghost use Rattle.std.specs.Prelude.{IfOk};
ghost use Rattle.searcher_core.specs.Shows.{AreSizes};

use doc_model::Doc;
use doc_sets::MAX_DOCS;
use field_schema::Schema;
use request_form::{Defaults, Request};
use searcher_core::{CacheSizes, Served};
use segment_postings::View;
use serde_json::Value;
use served_index::Index;
use std::alloc::Global;
use std::sync::Arc;
use std::test::Fail;

const SCHEMA: &str = "{\"uniqueKey\":\"id\",\"fields\":[{\"name\":\"id\",\"type\":\"string\"},
    {\"name\":\"cat\",\"type\":\"string\"},{\"name\":\"price\",\"type\":\"plong\"},
    {\"name\":\"t\",\"type\":\"text_general\"}]}";

const DOCUMENTS: [&str; 4] = [
    "{\"id\":\"a\",\"cat\":\"x\",\"price\":5,\"t\":\"Red apple pie\"}",
    "{\"id\":\"b\",\"cat\":\"y\",\"price\":7,\"t\":\"green apple\"}",
    "{\"id\":\"c\",\"cat\":\"x\",\"price\":9}",
    "{\"id\":\"d\",\"price\":5,\"t\":\"apple, red\"}",
];

// Five requests, of which the third and the last have filters of those before.
const REQUESTS: [&str; 5] = [
    "q=*:*&fq=cat:x",
    "q=*:*&fq=cat:y",
    "q=id:*&fq=cat:x",
    "q=*:*&fq=price:5",
    "q=id:*&fq=cat:y",
];

// What each of them is answered: how many documents, and their ids.
pub(crate) const ANSWERS: [&str; 5] = ["2 a c", "1 b", "2 a c", "2 a d", "1 b"];

// Caches of two filters, of two documents, and of eight results.
pub(crate) fn small_caches() -> CacheSizes
    ensures { AreSizes result }
{
    CacheSizes {
        filters: 2,
        results: 8,
        documents: 2,
        window: 2,
        most_docs: 8,
    }
}

pub(crate) fn schema(alloc: Global) -> Result<Schema, Fail> {
    Ok(Schema::read(alloc, &Value::from_str(alloc, SCHEMA)?)?)
}

// The view of the four documents.
pub(crate) fn view(alloc: Global, schema: &Schema) -> Result<Arc<View>, Fail> {
    let mut index = Index::new(alloc)?;
    for body in DOCUMENTS {
        let doc = Doc::read(alloc, schema, body)?;
        if index.numbers() >= MAX_DOCS {
            return Err(Fail::new("no room"));
        }
        index.add(alloc, Arc::new(alloc, doc)?)?;
    }
    Ok(index.next_view(alloc)?)
}

// The request of a query's parameters.
fn request(alloc: Global, schema: &Schema, params: &str) -> Result<Request, Fail> {
    let defaults = Defaults {
        df: schema.field("t"),
        most: 1024,
    };
    Ok(Request::read(alloc, schema, &defaults, params)?)
}

// All five.
pub(crate) fn requests(alloc: Global, schema: &Schema) -> Result<Vec<Request>, Fail> {
    let mut all = Vec::new(alloc);
    for params in REQUESTS {
        all.push(request(alloc, schema, params)?)?;
    }
    Ok(all)
}

// How many documents were found, and the ids of those of the page.
pub(crate) fn told(alloc: Global, served: &Served) -> Option<String> {
    let mut text = served.found.to_string(alloc).ok()?;
    for doc in served.docs.as_slice() {
        text.push_str(" ").ok()?;
        text.push_str(doc.id().get()).ok()?;
    }
    Some(text)
}
