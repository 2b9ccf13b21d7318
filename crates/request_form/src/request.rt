ghost use Rattle.std.specs.Prelude.{◌≡◌, IfOk, OnOk};
ghost use Rattle.field_schema.specs.Outcome.{Gives};
ghost use Rattle.request_form.specs.Params.{params_of};
ghost use Rattle.request_form.specs.Ranges.{IsRequest};
ghost use Rattle.query_text.specs.Readings.{indexed};
ghost use Rattle.request_form.specs.Filtering.{Knows, with_filter};
ghost use Rattle.request_form.specs.Requests.{default_field, filter_of, filters_of, is_no_memory, main_query, query_in, request_of, sort_by_params};

use crate::fault::RequestFault;
use crate::params::{Param, read_params, value_of};
use crate::value::{read_count, read_fields, read_op};
use field_schema::{FieldList, FieldNo, NoMemory, Schema};
use query_text::{Op, Parsed, QueryFault, SortFault, parse, read_sort};
use query_tree::{Query, Sort};
use sqlite_items::Items;
use std::alloc::Global;
use std::collections::BTreeSet;

/// What the configuration says of the requests that do not say it themselves.
#[derive(Clone, Copy, Debug, PartialEq, Eq)]
pub struct Defaults {
    /// The field of values that name none.
    pub df: Option<FieldNo>,
    /// The most clauses of one Boolean query.
    pub most: u32,
}

/// A query that the documents of an answer match beside the main one.
#[derive(Debug, Drop)]
pub struct Filter {
    pub query: Query,
    /// Whether the caches may be used.
    pub cached: bool,
    /// When it is evaluated among filters that are not cached, the least first.
    pub cost: i32,
}

/// A list of filters. Contracts see it as a list.
pub type Filters = Items<Filter>;

/// What a query asks for.
#[derive(Debug, Drop)]
pub struct Request {
    /// The main query.
    pub q: Query,
    /// Whether the caches may be used for it.
    pub q_cached: bool,
    /// The filters, in their order; no two have one query.
    pub filters: Filters,
    /// The order of the answer.
    pub sort: Sort,
    /// How many documents of the answer come before the page.
    pub start: u32,
    /// The most documents of the page.
    pub rows: u32,
    /// The fields that the reply shows.
    pub fields: FieldList,
}

impl Request {
    /// The request that parameters read to, or their first fault.
    ///
    /// - `start` (else 0) and `rows` (else 10): one to ten digits, of at most 2,147,483,647; else
    ///   `BadCount`.
    /// - `sort`: as [`read_sort`] reads it; else `Sort`. Missing, it is empty.
    /// - `fl`: names with commas or white space between them. Several are one list. No name, or `*`
    ///   among them, is all stored fields.
    /// - `q.op`: `OR`, `or`, `AND` or `and`; else `BadFlag`. Missing, it is OR.
    /// - `df`: the field of values that name none, in place of the configuration's; none where it
    ///   names no indexed field.
    /// - `q`: a query, as [`parse`] reads it; else `Query` with `which` 0. Missing, it is blank and
    ///   finds nothing.
    /// - `fq`: the same, for each in its order; else `Query` with its number, from 1, repeated ones
    ///   counted. Of filters with one query the first stays.
    ///
    /// The faults are looked at in this order. Of another parameter that stands twice the first
    /// counts, and the later ones have no fault. `NoMemory` comes only where memory is wanting. It
    /// costs the length of the parameters, and of each filter a look-up among those before it.
    pub fn read(
        alloc: Global,
        schema: &Schema,
        defaults: &Defaults,
        params: &str,
    ) -> Result<Request, RequestFault>
        ensures request { Gives is_no_memory result
            (request_of schema.now.list defaults.now (params_of params.now)) }
        ensures ranges { IfOk result IsRequest }
    {
        let params = read_params(alloc, params)?;
        read_request(alloc, schema, defaults, params.as_slice())
    }
}

// The request that parameters read to.
#[tactic(auto, unfolding(crate::specs::Requests::request_of))]
fn read_request(
    alloc: Global,
    schema: &Schema,
    defaults: &Defaults,
    params: &[Param],
) -> Result<Request, RequestFault>
    ensures { Gives is_no_memory result (request_of schema.now.list defaults.now params.now) }
{
    let start = read_count(alloc, params, "start", 0)?;
    let rows = read_count(alloc, params, "rows", 10)?;
    let sort = sort_by_params(alloc, schema, params)?;
    let op = read_op(alloc, params)?;
    let df = default_field(schema, defaults, params);
    let parsed = main_query(alloc, schema, df, op, defaults.most, params)?;
    let filters = read_filters(alloc, schema, df, op, defaults.most, params)?;
    let fields = read_fields(alloc, params)?;
    Ok(Request {
        q: parsed.query,
        q_cached: parsed.cached,
        filters,
        sort,
        start,
        rows,
        fields,
    })
}

// The sort, which is empty where nothing is said.
fn sort_by_params(alloc: Global, schema: &Schema, params: &[Param]) -> Result<Sort, RequestFault>
    ensures { Gives is_no_memory result (sort_by_params schema.now.list params.now) }
{
    let text = value_of(params, "sort").unwrap_or("");
    match read_sort(alloc, schema, text) {
        Ok(sort) => Ok(sort),
        Err(SortFault::NoMemory) => Err(RequestFault::NoMemory),
        Err(fault) => Err(RequestFault::Sort(fault)),
    }
}

// The field of values that name none.
fn default_field(schema: &Schema, defaults: &Defaults, params: &[Param]) -> Option<FieldNo>
    ensures { result ≡ default_field schema.now.list defaults.now params.now }
{
    match value_of(params, "df") {
        Some(name) => indexed(schema, name),
        None => defaults.df,
    }
}

// The indexed field of a name.
fn indexed(schema: &Schema, name: &str) -> Option<FieldNo>
    ensures { result ≡ indexed name.now schema.now.list }
{
    let number = schema.field(name)?;
    if schema.get(number)?.indexed {
        Some(number)
    } else {
        None
    }
}

// What the text of `q`, which is 0, or of an `fq` reads to.
fn query_in(
    alloc: Global,
    schema: &Schema,
    df: Option<FieldNo>,
    op: Op,
    most: u32,
    which: usize,
    text: &str,
) -> Result<Parsed, RequestFault>
    ensures { Gives is_no_memory result (query_in schema.now.list df op most which text.now) }
{
    match parse(alloc, schema, df, op, most, text) {
        Ok(parsed) => Ok(parsed),
        Err(QueryFault::NoMemory) => Err(RequestFault::NoMemory),
        Err(fault) => Err(RequestFault::Query { which, fault }),
    }
}

// The main query; the blank one where nothing is said.
fn main_query(
    alloc: Global,
    schema: &Schema,
    df: Option<FieldNo>,
    op: Op,
    most: u32,
    params: &[Param],
) -> Result<Parsed, RequestFault>
    ensures { Gives is_no_memory result (main_query schema.now.list df op most params.now) }
{
    let text = value_of(params, "q").unwrap_or("");
    query_in(alloc, schema, df, op, most, 0, text)
}

// The filters, each query once.
fn read_filters(
    alloc: Global,
    schema: &Schema,
    df: Option<FieldNo>,
    op: Op,
    most: u32,
    params: &[Param],
) -> Result<Filters, RequestFault>
    ensures { Gives is_no_memory result (filters_of schema.now.list df op most params.now) }
{
    let mut filters = Vec::new(alloc);
    let mut seen = BTreeSet::new(alloc);
    let mut which = 0usize;
    for param in params {
        if param.has_name("fq") {
            which += 1;
            let parsed = query_in(alloc, schema, df, op, most, which, param.value.get())?;
            add_filter(alloc, &mut filters, &mut seen, parsed)?;
        }
    }
    Ok(Items::from_vec(filters))
}

// Puts a filter behind the others, where none has its query.
fn add_filter(
    alloc: Global,
    filters: &mut Vec<Filter>,
    seen: &mut BTreeSet<Query>,
    parsed: Parsed,
) -> Result<(), NoMemory>
    requires known { Knows seen.old filters.old.items }
    ensures added { OnOk result
        (filters.new.items ≡ with_filter filters.old.items (filter_of parsed)) }
    ensures known { OnOk result (Knows seen.new filters.new.items) }
{
    let is_new = seen.insert(parsed.query.copy(alloc)?)?;
    if is_new {
        let filter = Filter {
            query: parsed.query,
            cached: parsed.cached,
            cost: parsed.cost,
        };
        filters.push(filter)?;
    }
    Ok(())
}
