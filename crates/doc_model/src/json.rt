ghost use Rattle.std.specs.Prelude.{◌≡◌, IfOk, OnOk, map, if◌then◌else◌};
ghost use Rattle.serde_json.specs.Data.{array, put as with_member};
ghost use Rattle.serde_json.specs.View.{view, items_view, members_view};
ghost use Rattle.doc_model.specs.DocJson.{doc_data, field_data, is_listed, is_shown, value_data, values_data};

use crate::doc::Doc;
use field_schema::{Field, FieldList, Key, NoMemory, Schema};
use serde_json::{Map, Value};
use std::alloc::Global;

/// The JSON object of the stored fields that are listed and have a value, by name; a multi-valued field is a
/// list. A listed name that is no field, or is not stored, adds nothing.
///
/// It costs the document's length, and for each field a comparison with each listed name and the logarithm
/// of the number of fields.
pub fn doc_json(
    alloc: Global,
    schema: &Schema,
    doc: &Doc,
    fields: &FieldList,
) -> Result<Value, NoMemory>
    ensures { IfOk result (λ v. view v ≡ doc_data schema.now fields.now doc.now) }
{
    let mut members = Map::new(alloc);
    for number in (0..schema.len()).rev() {
        if let Some(field) = schema.get(number) {
            add_member(alloc, &mut members, field, doc.values(number), fields)?;
        }
    }
    Ok(Value::Object(members))
}

// Adds a field's member, where the field is shown.
fn add_member(
    alloc: Global,
    members: &mut Map<String, Value>,
    field: &Field,
    values: &[Key],
    fields: &FieldList,
) -> Result<(), NoMemory>
    ensures { OnOk result (members_view members.new.entries
        ≡ (if is_shown fields.now field.now values.now
        then with_member field.now.name (field_data field.now values.now) (members_view members.old.entries)
        else members_view members.old.entries)) }
{
    if field.stored && lists(fields, field) && !values.is_empty() {
        let member = field_value(alloc, field, values)?;
        serde_json::put(members, alloc, field.name.get(), member)?;
    }
    Ok(())
}

// Whether the field is asked for.
fn lists(fields: &FieldList, field: &Field) -> bool
    ensures { result ≡ is_listed fields.now field.now }
{
    match fields {
        FieldList::All => true,
        FieldList::Names(names) => names
            .get()
            .iter()
            .any(|name| field.name.get() == name.get()),
    }
}

// What the field's member holds.
fn field_value(alloc: Global, field: &Field, values: &[Key]) -> Result<Value, NoMemory>
    ensures { IfOk result (λ v. view v ≡ field_data field.now values.now) }
{
    if field.multi {
        return list_value(alloc, values);
    }
    match values.first() {
        Some(first) => json_value(alloc, first),
        None => Ok(Value::Null),
    }
}

// The list of the values.
fn list_value(alloc: Global, values: &[Key]) -> Result<Value, NoMemory>
    ensures { IfOk result (λ v. view v ≡ array (values_data values.now)) }
{
    let mut items = Vec::new(alloc);
    for value in values {
        items.push(json_value(alloc, value)?)?;
    }
    Ok(Value::Array(items))
}

// What a value is as JSON.
fn json_value(alloc: Global, value: &Key) -> Result<Value, NoMemory>
    ensures { IfOk result (λ v. view v ≡ value_data value.now) }
{
    match value {
        Key::Str(text) => Ok(Value::try_from_str(alloc, text.get())?),
        Key::Long(number) => Ok(Value::from(*number)),
        Key::Bool(truth) => Ok(Value::Bool(*truth)),
        Key::Token(text) => Ok(Value::try_from_str(alloc, text.get())?),
    }
}
