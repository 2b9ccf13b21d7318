// What JSON values are in a field of a type.
ghost use Rattle.std.specs.Prelude.{◌≡◌, ◌++◌, List, Some, None, IfOk, MatchResult, IsSome, [], ◌∷◌, option_map, option_and_then, option_to_list, map, string_bytes};
ghost use Rattle.serde_json.specs.View.{view, number_view};
ghost use Rattle.field_schema.specs.declared.key.Key.{Key};
ghost use Rattle.serde_json.specs.Find.{as_integer};
ghost use Rattle.field_schema.specs.Outcome.{GivesAs};
ghost use Rattle.doc_model.specs.Readers.{of_type};
ghost use Rattle.doc_model.specs.ReadDoc.{is_no_memory, long_value, whole_text as text_of_whole, text_value as value_of_text, number_value as value_of_number, truth_value as value_of_truth, scalar_values, list_values, member_values as values_of_member};

use crate::doc::DocFault;
use field_schema::{Field, FieldType, Key, NoMemory, Text, begins_true, long_text, truth_text};
use serde_json::{Number, Value};
use std::alloc::Global;

// The values of a member in turn; a list's values are not lists.
pub(crate) fn member_values(
    alloc: Global,
    field: &Field,
    value: &Value,
) -> Result<Vec<Key>, DocFault>
    ensures { GivesAs (λ v. v.items) is_no_memory result
        (of_type field.now (values_of_member field.now.kind (view value.now))) }
{
    match value {
        Value::Array(values) => array_values(alloc, field, values.as_slice()),
        _ => lone_values(alloc, field, value),
    }
}

// The values of a member that is no list.
fn lone_values(alloc: Global, field: &Field, value: &Value) -> Result<Vec<Key>, DocFault>
    ensures { GivesAs (λ v. v.items) is_no_memory result
        (of_type field.now (scalar_values field.now.kind (view value.now))) }
{
    let mut found = room(alloc, 1)?;
    add_value(&mut found, scalar_value(alloc, field, value)?)?;
    Ok(found)
}

// The values of a list.
fn array_values(alloc: Global, field: &Field, values: &[Value]) -> Result<Vec<Key>, DocFault>
    ensures { GivesAs (λ v. v.items) is_no_memory result
        (of_type field.now (list_values field.now.kind (map view values.now))) }
{
    let mut found = room(alloc, values.len())?;
    for value in values {
        add_value(&mut found, scalar_value(alloc, field, value)?)?;
    }
    Ok(found)
}

// No values, with room for so many: a document keeps its lists of values as they are made here.
fn room(alloc: Global, most: usize) -> Result<Vec<Key>, NoMemory>
    ensures { IfOk result (λ v. v.items ≡ []) }
{
    Ok(Vec::with_capacity(alloc, most)?)
}

// Puts a value behind the others, where there is one.
fn add_value(found: &mut Vec<Key>, value: Option<Key>) -> Result<(), NoMemory>
    ensures { IfOk result (λ _. found.new.items ≡ found.old.items ++ option_to_list value) }
{
    if let Some(value) = value {
        found.push(value)?;
    }
    Ok(())
}

// The value that is no list; null is none.
fn scalar_value(alloc: Global, field: &Field, value: &Value) -> Result<Option<Key>, DocFault>
    ensures { GivesAs option_to_list is_no_memory result
        (of_type field.now (scalar_values field.now.kind (view value.now))) }
{
    let read = match value {
        Value::Null => return Ok(None),
        Value::Bool(truth) => truth_value(alloc, field.kind, *truth)?,
        Value::Number(number) => number_value(alloc, field.kind, number)?,
        Value::String(text) => text_value(alloc, field.kind, text.as_str())?,
        Value::Array(_) | Value::Object(_) => None,
    };
    match read {
        Some(key) => Ok(Some(key)),
        None => Err(DocFault::BadValue {
            field: field.name.copy(alloc)?,
        }),
    }
}

// What a text is in a field of the type.
fn text_value(alloc: Global, kind: FieldType, text: &str) -> Result<Option<Key>, NoMemory>
    ensures { IfOk result (λ k. k ≡ value_of_text kind text.now) }
{
    match kind {
        FieldType::Str => Ok(Some(Key::Str(Text::from_str(alloc, text)?))),
        FieldType::Long => Ok(long_text(text).map(Key::Long)),
        FieldType::Bool => Ok(Some(Key::Bool(begins_true(text)))),
        FieldType::Text => Ok(Some(Key::Token(Text::from_str(alloc, text)?))),
    }
}

// What a number is in a field of the type.
fn number_value(alloc: Global, kind: FieldType, number: &Number) -> Result<Option<Key>, NoMemory>
    ensures { IfOk result (λ k. k ≡ value_of_number kind (number_view number.now)) }
{
    if kind == FieldType::Long {
        return Ok(whole_number(number));
    }
    match whole_text(alloc, number)? {
        Some(text) => text_value(alloc, kind, text.as_str()),
        None => Ok(None),
    }
}

// A whole number within 64 signed bits.
fn whole_number(number: &Number) -> Option<Key>
    ensures { result ≡ option_and_then long_value (as_integer (number_view number.now)) }
{
    match number.as_i64() {
        Some(whole) => Some(Key::Long(whole)),
        None => None,
    }
}

// The decimal text of a whole number; none where it has a fraction or an exponent.
fn whole_text(alloc: Global, number: &Number) -> Result<Option<String>, NoMemory>
    ensures { IfOk result (λ t. option_map string_bytes t ≡ text_of_whole (number_view number.now)) }
{
    if let Some(n) = number.as_u64() {
        return Ok(Some(n.to_string(alloc)?));
    }
    match number.as_i64() {
        Some(n) => Ok(Some(n.to_string(alloc)?)),
        None => Ok(None),
    }
}

// What true or false is in a field of the type.
fn truth_value(alloc: Global, kind: FieldType, truth: bool) -> Result<Option<Key>, NoMemory>
    ensures { IfOk result (λ k. k ≡ value_of_truth kind truth) }
{
    match kind {
        FieldType::Str => Ok(Some(Key::Str(Text::from_str(alloc, truth_text(truth))?))),
        FieldType::Long => Ok(None),
        FieldType::Bool => Ok(Some(Key::Bool(truth))),
        FieldType::Text => Ok(Some(Key::Token(Text::from_str(alloc, truth_text(truth))?))),
    }
}
