ghost use Rattle.std.specs.Prelude.{◌≡◌, ◌≤◌, [], IfOk, IfErr, ⊤, map, length, ok_or, Some, None};
ghost use Rattle.std.specs.Bool.{MatchBool};
ghost use Rattle.std.specs.List.{list_any, filter_map};
ghost use Rattle.field_schema.specs.Bytes.{bytes_eq};
ghost use Rattle.field_schema.specs.Schema.{is_str, can_be_key};
ghost use Rattle.field_schema.specs.Outcome.{GivesAs};
ghost use Rattle.field_schema.specs.ReadSchema.{name_of, field_of, kind_named, key_in, is_no_memory};
ghost use Rattle.field_schema.specs.Readers.{field_or_fault, fields_or_fault};
ghost use Rattle.field_schema.specs.declared.schema.SchemaFault.TheVariants as fault;
ghost use Rattle.serde_json.specs.View.{view};

use crate::field::{Field, FieldNo, FieldType};
use crate::member::{flag_at, name_of, text_at, type_of};
use crate::name::is_field_name;
use crate::schema::SchemaFault;
use crate::text::Text;
use serde_json::Value;
use std::alloc::Global;

// The most fields of a schema.
const MOST_FIELDS: usize = 64;

// The fields of a list of fields' objects, or the fault of the first that has one.
pub(crate) fn read_fields(alloc: Global, list: &[Value]) -> Result<Vec<Field>, SchemaFault>
    ensures { GivesAs (λ v. v.items) is_no_memory result (fields_or_fault (map view list.now)) }
{
    let mut fields = Vec::new(alloc);
    for (i, value) in list.iter().enumerate() {
        let field = read_field(alloc, &list[..i], value)?;
        fields.push(field)?;
    }
    Ok(fields)
}

// The field of an object behind the earlier ones, or its fault.
fn read_field(alloc: Global, earlier: &[Value], value: &Value) -> Result<Field, SchemaFault>
    ensures { GivesAs Some is_no_memory result (field_or_fault (map view earlier.now) (view value.now)) }
{
    let name = Text::from_str(alloc, name_of(value))?;
    if !is_field_name(name.get()) || earlier.len() >= MOST_FIELDS {
        return Err(SchemaFault::BadName { name });
    }
    let field = typed_field(name, value)?;
    if has_name(earlier, field.name.get()) {
        return Err(SchemaFault::Twice { name: field.name });
    }
    Ok(field)
}

// The field of that name, where the object's type and its flags are what they must be.
fn typed_field(name: Text, value: &Value) -> Result<Field, SchemaFault>
    requires { name ≡ name_of (view value.now) }
    ensures { result ≡ ok_or (field_of (view value.now)) (fault.BadType name) }
{
    let kind = kind_named(type_of(value));
    let multi = flag_at(value, "multiValued", false);
    let stored = flag_at(value, "stored", true);
    let indexed = flag_at(value, "indexed", true);
    match (kind, multi, stored, indexed) {
        (Some(kind), Some(multi), Some(stored), Some(indexed)) => Ok(Field {
            name,
            kind,
            multi,
            stored,
            indexed,
        }),
        _ => Err(SchemaFault::BadType { name }),
    }
}

// The field type of that name.
fn kind_named(name: &str) -> Option<FieldType>
    ensures { result ≡ kind_named name.now }
{
    match name {
        "string" => Some(FieldType::Str),
        "plong" => Some(FieldType::Long),
        "boolean" => Some(FieldType::Bool),
        "text_general" => Some(FieldType::Text),
        _ => None,
    }
}

// Whether an earlier object has the name.
fn has_name(earlier: &[Value], name: &str) -> bool
    ensures { result ≡ list_any (λ e. bytes_eq (name_of (view e)) name.now) earlier.now }
{
    earlier.iter().any(|e| name_of(e) == name)
}

// The place of the field that `uniqueKey` names, where it can be the key.
pub(crate) fn key_place(fields: &[Field], value: &Value) -> Option<FieldNo>
    requires { length fields.now ≤ 64 }
    ensures { result ≡ key_in fields.now (view value.now) }
{
    let name = text_at(value, "uniqueKey")?;
    for (i, f) in fields.iter().enumerate() {
        if f.name.get() == name && can_be_key(f) {
            return Some(i as FieldNo);
        }
    }
    None
}

// Whether the field is a stored and indexed string field of one value.
fn can_be_key(field: &Field) -> bool
    ensures { result ≡ can_be_key field.now }
{
    field.kind == FieldType::Str && field.stored && field.indexed && !field.multi
}
