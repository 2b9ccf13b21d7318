//! What stands in rows.
ghost use Rattle.std.specs.Prelude.{◌<◌, IfOk};
ghost use Rattle.doc_sets.specs.declared.TheConstants.{MAX_DOCS};
ghost use Rattle.searcher_core.specs.Shows.{AreSizes, IsSize};

use doc_sets::{DocNo, MAX_DOCS};
use field_schema::{Key, NoMemory, Schema, truth_text};
use query_text::{Op, parse};
use query_tree::Query;
use request_form::{Defaults, Request};
use searcher_core::CacheSizes;
use serde_json::Value;
use std::alloc::Global;
use std::test::Fail;

// The field of values without one of their own.
const DEFAULT_FIELD: &str = "t";

// The first word of a text, and what stands behind the space behind it.
pub(crate) fn first_word(text: &str) -> (&str, &str) {
    text.split_once(' ').unwrap_or((text, ""))
}

// The number of a document.
pub(crate) fn doc_number(text: &str) -> Result<DocNo, Fail>
    ensures { IfOk result (λ n. n < MAX_DOCS) }
{
    let number = text.parse::<u32>()?;
    if number < MAX_DOCS {
        Ok(number)
    } else {
        Err(Fail::new("no number of a document"))
    }
}

pub(crate) fn schema(alloc: Global, text: &str) -> Result<Schema, Fail> {
    Ok(Schema::read(alloc, &Value::from_str(alloc, text)?)?)
}

pub(crate) fn query(alloc: Global, schema: &Schema, op: Op, text: &str) -> Result<Query, Fail> {
    let df = schema.field(DEFAULT_FIELD);
    Ok(parse(alloc, schema, df, op, 1024, text)?.query)
}

// The request of a query's parameters.
pub(crate) fn request(alloc: Global, schema: &Schema, params: &str) -> Result<Request, Fail> {
    let defaults = Defaults {
        df: schema.field(DEFAULT_FIELD),
        most: 1024,
    };
    Ok(Request::read(alloc, schema, &defaults, params)?)
}

// The size of a cache.
fn size(text: Option<&str>) -> Result<u32, Fail>
    ensures { IfOk result IsSize }
{
    let size = text.ok_or("no size")?.parse::<u32>()?;
    if 1 <= size && size <= 4096 {
        Ok(size)
    } else {
        Err(Fail::new("no size of a cache"))
    }
}

// The sizes of a searcher's caches: of filters, of results, of documents, of a window, and of the longest result.
pub(crate) fn sizes(row: &str) -> Result<CacheSizes, Fail>
    ensures { IfOk result AreSizes }
{
    let mut words = row.split(' ');
    let filters = size(words.next())?;
    let results = size(words.next())?;
    let documents = size(words.next())?;
    let window = size(words.next())?;
    let most_docs = size(words.next())?;
    Ok(CacheSizes {
        filters,
        results,
        documents,
        window,
        most_docs,
    })
}

// Adds a value's text.
pub(crate) fn tell_key(alloc: Global, key: &Key, told: &mut String) -> Result<(), NoMemory> {
    match key {
        Key::Str(text) | Key::Token(text) => told.push_str(text.get())?,
        Key::Long(number) => told.push_str(format!(in alloc; "{number}")?.as_str())?,
        Key::Bool(truth) => told.push_str(truth_text(*truth))?,
    }
    Ok(())
}
