ghost use Rattle.std.specs.Prelude.{◌≡◌, option_map, map, if◌then◌else◌};
ghost use Rattle.std.specs.List.{list_all};
ghost use Rattle.field_schema.specs.ReadSchema.{text_at, name_of, type_of, has_shape, flag_at, is_shaped, field_data};
ghost use Rattle.serde_json.specs.View.{view};

use serde_json::Value;

// A member that is a text.
pub(crate) fn text_at<'a>(value: &'a Value, name: &str) -> Option<&'a str>
    ensures { option_map (λ s. s.now) result ≡ text_at name.now (view value.now) }
{
    value.get(name)?.as_str()
}

// The name of a field's object, or the empty text.
pub(crate) fn name_of(field: &Value) -> &str
    ensures { result.now ≡ name_of (view field.now) }
{
    text_at(field, "name").unwrap_or("")
}

// The type of a field's object, or the empty text.
pub(crate) fn type_of(field: &Value) -> &str
    ensures { result.now ≡ type_of (view field.now) }
{
    text_at(field, "type").unwrap_or("")
}

// Whether a field's object has texts for its name and its type.
pub(crate) fn has_shape(field: &Value) -> bool
    ensures { result ≡ has_shape (view field.now) }
{
    text_at(field, "name").is_some() && text_at(field, "type").is_some()
}

// A flag that may be left out; None where it is neither true nor false.
pub(crate) fn flag_at(field: &Value, name: &str, missing: bool) -> Option<bool>
    ensures { result ≡ flag_at name.now missing (view field.now) }
{
    match field.get(name) {
        Some(flag) => flag.as_bool(),
        None => Some(missing),
    }
}

// The fields' objects, where the value has the shape of a schema.
pub(crate) fn field_values(value: &Value) -> Option<&[Value]>
    ensures { option_map (λ v. map view v.now) result
        ≡ (if is_shaped (view value.now) then Some (field_data (view value.now)) else None) }
{
    let list = value.get("fields")?.as_array()?.as_slice();
    if list.is_empty() || !are_shaped(list) {
        return None;
    }
    Some(list)
}

// Whether each object has texts for its name and its type.
fn are_shaped(list: &[Value]) -> bool
    ensures { result ≡ list_all (λ v. has_shape (view v)) list.now }
{
    list.iter().all(|field| has_shape(field))
}
