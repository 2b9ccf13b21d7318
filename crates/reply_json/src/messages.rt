//! The messages of refused requests.
ghost use Rattle.std.specs.Prelude.{◌≡◌, ◌++◌, IfOk, OnOk, codes, false, string_bytes};
ghost use Rattle.doc_model.specs.ReadDoc.{is_no_memory as is_no_memory_of_doc};
ghost use Rattle.search_model.specs.Messages.{doc_message};
ghost use Rattle.request_form.specs.Messages.{at_place, query_message, query_name, request_message, sort_message};
ghost use Rattle.request_form.specs.Requests.{is_no_memory};

use doc_model::DocFault;
use field_schema::{NoMemory, Text};
use query_text::{QueryFault, SortFault};
use request_form::RequestFault;
use std::alloc::Global;

// The message of a document's fault, which is not want of memory.
pub(crate) fn doc_message_text(alloc: Global, fault: &DocFault) -> Result<Text, NoMemory>
    ensures fault { OnOk result (is_no_memory_of_doc fault.now ≡ false) }
    ensures message { IfOk result (λ t. t ≡ doc_message fault.now) }
{
    let text = match fault {
        DocFault::NotObject => String::from_str(alloc, "NotObject")?,
        DocFault::NoId => String::from_str(alloc, "NoId")?,
        DocFault::UnknownField { name } => {
            let name = name.get();
            format!(in alloc; "UnknownField {name}")?
        }
        DocFault::BadValue { field } => {
            let field = field.get();
            format!(in alloc; "BadValue {field}")?
        }
        DocFault::ManyValues { field } => {
            let field = field.get();
            format!(in alloc; "ManyValues {field}")?
        }
        DocFault::TooLong { bytes } => format!(in alloc; "TooLong {bytes}")?,
        DocFault::NoMemory => return Err(NoMemory),
    };
    Ok(Text::new(text))
}

// A fault's name and its place in the text.
fn place_text(alloc: Global, name: &str, at: usize) -> Result<String, NoMemory>
    ensures { IfOk result (λ s. string_bytes s ≡ at_place name.now at) }
{
    Ok(format!(in alloc; "{name} at {at}")?)
}

// The message of a query's fault.
fn query_message_text(alloc: Global, fault: QueryFault) -> Result<String, NoMemory>
    ensures { IfOk result (λ s. string_bytes s ≡ query_message fault) }
{
    match fault {
        QueryFault::Syntax { at } => place_text(alloc, "Syntax", at),
        QueryFault::UnknownField { at } => place_text(alloc, "UnknownField", at),
        QueryFault::BadNumber { at } => place_text(alloc, "BadNumber", at),
        QueryFault::Unsupported { at } => place_text(alloc, "Unsupported", at),
        QueryFault::BadLocal { at } => place_text(alloc, "BadLocal", at),
        QueryFault::TooDeep { at } => place_text(alloc, "TooDeep", at),
        QueryFault::TooManyClauses { at } => place_text(alloc, "TooManyClauses", at),
        QueryFault::NoMemory => Ok(String::from_str(alloc, "NoMemory")?),
    }
}

// The message of a sort's fault.
fn sort_message_text(alloc: Global, fault: SortFault) -> Result<String, NoMemory>
    ensures { IfOk result (λ s. string_bytes s ≡ sort_message fault) }
{
    match fault {
        SortFault::BadSort { at } => place_text(alloc, "BadSort", at),
        SortFault::UnknownField { at } => place_text(alloc, "UnknownField", at),
        SortFault::NotSortable { at } => place_text(alloc, "NotSortable", at),
        SortFault::NoMemory => Ok(String::from_str(alloc, "NoMemory")?),
    }
}

// The message of a fault in the text of `q`, which is 0, or of the n-th `fq`.
fn query_fault_text(alloc: Global, which: usize, fault: QueryFault) -> Result<String, NoMemory>
    ensures { IfOk result (λ s. string_bytes s ≡ query_name which ++ (codes ": " ++ query_message fault)) }
{
    let message = query_message_text(alloc, fault)?;
    let message = message.as_str();
    if which == 0 {
        Ok(format!(in alloc; "q: {message}")?)
    } else {
        Ok(format!(in alloc; "fq {which}: {message}")?)
    }
}

// The message of a request's fault, which is not want of memory.
pub(crate) fn request_message_text(alloc: Global, fault: &RequestFault) -> Result<Text, NoMemory>
    ensures fault { OnOk result (is_no_memory fault.now ≡ false) }
    ensures message { IfOk result (λ t. t ≡ request_message fault.now) }
{
    match fault {
        RequestFault::BadCount { param } => {
            let param = param.get();
            Ok(Text::new(format!(in alloc; "BadCount {param}")?))
        }
        RequestFault::BadFlag { param } => {
            let param = param.get();
            Ok(Text::new(format!(in alloc; "BadFlag {param}")?))
        }
        RequestFault::Query { which, fault } => {
            Ok(Text::new(query_fault_text(alloc, *which, *fault)?))
        }
        RequestFault::Sort(fault) => {
            let message = sort_message_text(alloc, *fault)?;
            let message = message.as_str();
            Ok(Text::new(format!(in alloc; "sort: {message}")?))
        }
        RequestFault::DeleteQuery(fault) => {
            let message = query_message_text(alloc, *fault)?;
            let message = message.as_str();
            Ok(Text::new(format!(in alloc; "query: {message}")?))
        }
        RequestFault::NoMemory => Err(NoMemory),
    }
}
