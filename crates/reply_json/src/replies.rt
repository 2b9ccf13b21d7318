ghost use Rattle.std.specs.Prelude.{◌≡◌, IfOk, false, map};
ghost use Rattle.std.specs.Arc.{arc_value};
ghost use Rattle.serde_json.specs.Data.{object};
ghost use Rattle.serde_json.specs.View.{view};
ghost use Rattle.serde_json.specs.Written.{compact_text, has_float};
ghost use Rattle.search_model.specs.Reply.{docs_items, found_object, header, refused_data};
ghost use Rattle.reply_json.specs.Answers.{IsSound, answer_data};

use crate::messages::{doc_message_text, request_message_text};
use doc_model::{Doc, DocFault, doc_json};
use field_schema::{FieldList, NoMemory, Schema, Text};
use request_form::RequestFault;
use serde_json::{Value, json};
use std::alloc::{AllocError, Global};
use std::sync::Arc;

/// What a request is answered.
#[derive(Drop)]
pub enum Answer {
    /// The documents of a page, which begins at `start`, of `found` in all.
    Found {
        found: u32,
        start: u32,
        docs: Vec<Arc<Doc>>,
    },
    /// An update or a commit was accepted.
    Accepted,
    /// The document does not read.
    BadDoc(DocFault),
    /// The parameters do not read.
    BadRequest(RequestFault),
    /// There was no memory for the request.
    NoMemory,
}

/// The reply as a JSON object: the documents with the fields that are listed, or the message and the code of the refusal, and the
/// status. Fails only for want of memory. It costs the length of the reply.
///
/// A fault inside the answer is none of memory: for that there is `Answer::NoMemory`.
pub fn reply(
    alloc: Global,
    schema: &Schema,
    answer: &Answer,
    fields: &FieldList,
) -> Result<Value, NoMemory>
    requires { IsSound answer.now }
    ensures { IfOk result (λ v. view v ≡ answer_data schema.now fields.now answer.now) }
{
    match answer {
        Answer::Found { found, start, docs } => {
            let docs = docs_value(alloc, schema, docs.as_slice(), fields)?;
            Ok(found_value(alloc, docs, *found, *start)?)
        }
        Answer::Accepted => Ok(accepted_value(alloc)?),
        Answer::BadDoc(fault) => {
            let message = doc_message_text(alloc, fault)?;
            Ok(refused_value(alloc, 400, message.get())?)
        }
        Answer::BadRequest(fault) => {
            let message = request_message_text(alloc, fault)?;
            Ok(refused_value(alloc, 400, message.get())?)
        }
        Answer::NoMemory => Ok(refused_value(alloc, 500, "NoMemory")?),
    }
}

/// The text of the reply, without white space. Fails only for want of memory.
pub fn reply_text(
    alloc: Global,
    schema: &Schema,
    answer: &Answer,
    fields: &FieldList,
) -> Result<Text, NoMemory>
    requires { IsSound answer.now }
    ensures { IfOk result (λ t. t ≡ compact_text (answer_data schema.now fields.now answer.now)) }
{
    let value = reply(alloc, schema, answer, fields)?;
    text_of(alloc, &value)
}

// The text of a value without floats.
fn text_of(alloc: Global, value: &Value) -> Result<Text, NoMemory>
    requires { has_float (view value.now) ≡ false }
    ensures { IfOk result (λ t. t ≡ compact_text (view value.now)) }
{
    Ok(Text::new(value.to_string(alloc)?))
}

// The reply to an accepted update or commit.
fn accepted_value(alloc: Global) -> Result<Value, AllocError>
    ensures { IfOk result (λ v. view v ≡ object (header 0)) }
{
    json!(in alloc; {"responseHeader": {"status": 0}})
}

// The reply to a refused request.
fn refused_value(alloc: Global, code: u32, message: &str) -> Result<Value, AllocError>
    ensures { IfOk result (λ v. view v ≡ refused_data code message.now) }
{
    json!(in alloc; {"error": {"code": code, "msg": message}, "responseHeader": {"status": code}})
}

// The reply of a query, with its documents as a list.
fn found_value(alloc: Global, docs: Value, found: u32, start: u32) -> Result<Value, AllocError>
    ensures { IfOk result (λ v. view v ≡ found_object (view docs) found start) }
{
    json!(in alloc; {
        "response": {"docs": docs, "numFound": found, "numFoundExact": true, "start": start},
        "responseHeader": {"status": 0}
    })
}

// Documents as a list of JSON objects.
fn docs_value(
    alloc: Global,
    schema: &Schema,
    docs: &[Arc<Doc>],
    fields: &FieldList,
) -> Result<Value, NoMemory>
    ensures { IfOk result (λ v. view v ≡ docs_items schema.now fields.now (map arc_value docs.now)) }
{
    let mut values = Vec::with_capacity(alloc, docs.len())?;
    for doc in docs {
        values.push(doc_json(alloc, schema, doc, fields)?)?;
    }
    Ok(Value::Array(values))
}
