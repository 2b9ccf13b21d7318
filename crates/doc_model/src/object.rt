// The members of a document's object.
ghost use Rattle.std.specs.Prelude.{◌≡◌, [], ⊤, List, Some, None, true, IfOk, IfErr, MatchResult, length, option_map, map, ok_or};
ghost use Rattle.std.specs.Bool.{MatchBool};
ghost use Rattle.std.specs.Option.{option_map_or, option_copied};
ghost use Rattle.serde_json.specs.Data.{no_members};
ghost use Rattle.serde_json.specs.Errors.{IsMemory};
ghost use Rattle.serde_json.specs.Find.{get_member, as_object};
ghost use Rattle.serde_json.specs.Read.{read as read_text};
ghost use Rattle.serde_json.specs.View.{view, members_view};
ghost use Rattle.field_schema.specs.Schema.{field_named};
ghost use Rattle.doc_model.specs.ReadDoc.{is_no_memory, member_values as values_of_member, too_long as first_too_long, values_fault, member_fault, has_no_value as has_nothing, lacks_id as lacks_an_id, lacks_value, values_of, object_doc};
ghost use Rattle.field_schema.specs.Outcome.{Gives, GivesAs};
ghost use Rattle.doc_model.specs.Readers.{object_of, member_or_fault, values_or_fault};
ghost use Rattle.doc_model.specs.Document.{IsIdAt, with_id, str_text};
ghost use Rattle.doc_model.specs.declared.doc.DocFault.TheVariants.{NotObject, UnknownField, BadValue, ManyValues};

use crate::doc::DocFault;
use crate::value::member_values;
use field_schema::{Field, FieldNo, Key, NoMemory, Schema, Text};
use serde_json::{Category, Error, Map, Value};
use std::alloc::Global;

// The longest value of a string field, in bytes.
const MOST_BYTES: usize = 32766;

// The members of the object that a text is.
pub(crate) fn read_members(alloc: Global, body: &str) -> Result<Map<String, Value>, DocFault>
    ensures { GivesAs (λ m. members_view m.entries) is_no_memory result (object_of body.now) }
{
    match Value::from_str(alloc, body) {
        Ok(value) => object_members(value),
        Err(error) => Err(text_fault(&error)),
    }
}

// The members of an object.
fn object_members(value: Value) -> Result<Map<String, Value>, DocFault>
    ensures { GivesAs (λ m. members_view m.entries) is_no_memory result
        (ok_or (as_object (view value)) NotObject) }
{
    match value {
        Value::Object(members) => Ok(members),
        _other => Err(DocFault::NotObject),
    }
}

// The fault of a text that did not read.
fn text_fault(error: &Error) -> DocFault
    ensures { MatchBool (is_no_memory result) ⊤ ((result ≡ NotObject) × ¬ IsMemory error.now) }
{
    if error.classify() == Category::Memory {
        DocFault::NoMemory
    } else {
        DocFault::NotObject
    }
}

// The values of each field, or the first fault.
pub(crate) fn read_object(
    alloc: Global,
    schema: &Schema,
    members: &Map<String, Value>,
) -> Result<Vec<Vec<Key>>, DocFault>
    ensures read { GivesAs (λ d. with_id (map (λ v. v.items) d.items) schema.now.key) is_no_memory result
        (object_doc schema.now (members_view members.now.entries)) }
    ensures id { IfOk result (λ d. IsIdAt (with_id (map (λ v. v.items) d.items) schema.now.key) schema.now.key) }
{
    let key = schema.key_field();
    if lacks_id(schema.get(key), members) {
        return Err(DocFault::NoId);
    }
    let mut fields = no_values(alloc, schema)?;
    for (name, value) in members.iter() {
        let (number, values) = read_member(alloc, schema, name.as_str(), value)?;
        fields[number as usize] = values;
    }
    Ok(fields)
}

// For each field no value.
fn no_values(alloc: Global, schema: &Schema) -> Result<Vec<Vec<Key>>, NoMemory>
    ensures { IfOk result (λ d. map (λ v. v.items) d.items ≡ map (values_of no_members) schema.now.list) }
{
    let mut empty = Vec::with_capacity(alloc, schema.len() as usize)?;
    for _number in 0..schema.len() {
        empty.push(Vec::new(alloc))?;
    }
    Ok(empty)
}

// Whether the key's member is absent or has no value.
fn lacks_id(key: Option<&Field>, members: &Map<String, Value>) -> bool
    ensures { result ≡ lacks_value (option_copied key.entry) (members_view members.now.entries) }
{
    let Some(key) = key else {
        return true;
    };
    match member(members, key.name.get()) {
        Some(value) => has_no_value(value),
        None => true,
    }
}

// The member of that name.
fn member<'m>(members: &'m Map<String, Value>, name: &str) -> Option<&'m Value>
    ensures { option_map (λ v. view v.now) result ≡ get_member name.now (members_view members.now.entries) }
{
    members.get(name)
}

// Null, or a list of nothing but nulls.
fn has_no_value(value: &Value) -> bool
    ensures { result ≡ has_nothing (view value.now) }
{
    match value {
        Value::Null => true,
        Value::Array(values) => values.iter().all(|value| value.is_null()),
        _ => false,
    }
}

// The place of a member's field, and its values there.
fn read_member(
    alloc: Global,
    schema: &Schema,
    name: &str,
    value: &Value,
) -> Result<(FieldNo, Vec<Key>), DocFault>
    ensures place { IfOk result (λ p. field_named name.now schema.now.list ≡ Some p.0) }
    ensures read { GivesAs (λ p. Some p.1.items) is_no_memory result
        (member_or_fault schema.now.list name.now (view value.now)) }
{
    let number = named_field(alloc, schema, name)?;
    match schema.get(number) {
        Some(field) => Ok((number, field_values(alloc, field, value)?)),
        None => unreachable!(),
    }
}

// The place of the field of a member's name.
fn named_field(alloc: Global, schema: &Schema, name: &str) -> Result<FieldNo, DocFault>
    ensures { Gives is_no_memory result (ok_or (field_named name.now schema.now.list) (UnknownField name.now)) }
{
    match schema.field(name) {
        Some(number) => Ok(number),
        None => Err(DocFault::UnknownField {
            name: Text::from_str(alloc, name)?,
        }),
    }
}

// The values of a member in its field.
fn field_values(alloc: Global, field: &Field, value: &Value) -> Result<Vec<Key>, DocFault>
    ensures { GivesAs (λ v. v.items) is_no_memory result (values_or_fault field.now (view value.now)) }
{
    let values = member_values(alloc, field, value)?;
    if !field.multi && values.len() > 1 {
        return Err(DocFault::ManyValues {
            field: field.name.copy(alloc)?,
        });
    }
    match too_long(values.as_slice()) {
        Some(bytes) => Err(DocFault::TooLong { bytes }),
        None => Ok(values),
    }
}

// The length of the first value of a string field that is too long.
fn too_long(values: &[Key]) -> Option<usize>
    ensures { result ≡ first_too_long values.now }
{
    for value in values {
        let bytes = str_length(value);
        if bytes > MOST_BYTES {
            return Some(bytes);
        }
    }
    None
}

// The length of a string field's value, and 0 for others.
fn str_length(value: &Key) -> usize
    ensures { result ≡ length (str_text value.now) }
{
    match value {
        Key::Str(text) => text.get().len(),
        _ => 0,
    }
}
