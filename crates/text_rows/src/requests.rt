//! The parameters of requests.
use crate::desk::Row;
use crate::queries::{query_fault, sort_fault, sort_text};
use field_schema::{FieldList, Schema};
use query_text::print;
use request_form::{CommitForm, Defaults, DeleteForm, Filter, Request, RequestFault};
use std::alloc::Global;
use std::test::Fail;

// What a row of these kinds is answered: what its parameters read to, or their fault. Values that name no field are of
// `t`.
pub(crate) fn tell(alloc: Global, schema: &Schema, row: Row<'_>) -> Result<Option<String>, Fail> {
    let defaults = Defaults {
        df: schema.field("t"),
        most: 1_024,
    };
    let told = match row.kind.as_bytes() {
        b"query" => match Request::read(alloc, schema, &defaults, row.text) {
            Ok(request) => request_text(alloc, schema, &request)?,
            Err(fault) => fault_text(alloc, &fault)?,
        },
        b"commit" => match CommitForm::read(alloc, row.text) {
            Ok(commit) => commit_text(alloc, commit)?,
            Err(fault) => fault_text(alloc, &fault)?,
        },
        b"delete" => match DeleteForm::read(alloc, schema, &defaults, row.text) {
            Ok(delete) => delete_text(alloc, schema, &delete)?,
            Err(fault) => fault_text(alloc, &fault)?,
        },
        _ => return Ok(None),
    };
    Ok(Some(told))
}

fn fault_text(alloc: Global, fault: &RequestFault) -> Result<String, Fail> {
    match fault {
        RequestFault::BadCount { param } => Ok(format!(in alloc; "BadCount {}", param.get())?),
        RequestFault::BadFlag { param } => Ok(format!(in alloc; "BadFlag {}", param.get())?),
        RequestFault::Query { which: 0, fault } => {
            let told = query_fault(alloc, fault)?;
            Ok(format!(in alloc; "q: {told}")?)
        }
        RequestFault::Query { which, fault } => {
            let told = query_fault(alloc, fault)?;
            Ok(format!(in alloc; "fq {which}: {told}")?)
        }
        RequestFault::Sort(fault) => {
            let told = sort_fault(alloc, fault)?;
            Ok(format!(in alloc; "sort: {told}")?)
        }
        RequestFault::DeleteQuery(fault) => {
            let told = query_fault(alloc, fault)?;
            Ok(format!(in alloc; "query: {told}")?)
        }
        RequestFault::NoMemory => Ok(String::from_str(alloc, "NoMemory")?),
    }
}

// Adds the filters, in their order.
fn push_filters(
    alloc: Global,
    schema: &Schema,
    filters: &[Filter],
    told: &mut String,
) -> Result<(), Fail> {
    for filter in filters {
        told.push_str(" & ")?;
        told.push_str(print(alloc, schema, &filter.query)?.get())?;
        if !filter.cached {
            told.push_str(format!(in alloc; " uncached {}", filter.cost)?.as_str())?;
        }
    }
    Ok(())
}

// The main query, the filters, the sort, `start`, `rows` and the fields that are listed.
fn request_text(alloc: Global, schema: &Schema, request: &Request) -> Result<String, Fail> {
    let mut told = String::from_str(alloc, print(alloc, schema, &request.q)?.get())?;
    if !request.q_cached {
        told.push_str(" uncached")?;
    }
    push_filters(alloc, schema, request.filters.as_slice(), &mut told)?;
    if !request.sort.get().is_empty() {
        told.push_str(" ")?;
        told.push_str(sort_text(alloc, &request.sort)?.as_str())?;
    }
    let (start, rows) = (request.start, request.rows);
    told.push_str(format!(in alloc; " {start} {rows}")?.as_str())?;
    if let FieldList::Names(names) = &request.fields {
        for name in names.get() {
            told.push_str(" ")?;
            told.push_str(name.get())?;
        }
    }
    Ok(told)
}

fn commit_text(alloc: Global, form: CommitForm) -> Result<String, Fail> {
    let text = match (form.opens, form.wait) {
        (true, true) => "opens waits",
        (true, false) => "opens",
        (false, true) => "waits",
        (false, false) => "",
    };
    Ok(String::from_str(alloc, text)?)
}

fn delete_text(alloc: Global, schema: &Schema, form: &DeleteForm) -> Result<String, Fail> {
    match form {
        DeleteForm::Id(id) => Ok(format!(in alloc; "id {}", id.get())?),
        DeleteForm::Query(query) => {
            let shown = print(alloc, schema, query)?;
            Ok(String::from_str(alloc, shown.get())?)
        }
    }
}
