ghost use Rattle.std.specs.Prelude.{◌≡◌, ◌<◌, ◌≤◌, IfOk, IsTrue, length, map, Contains, option_map, slice_get};
ghost use Rattle.std.specs.List.{list_all};
ghost use Rattle.std.specs.Option.{option_copied};
ghost use Rattle.field_schema.specs.Names.{is_field_name};
ghost use Rattle.field_schema.specs.Outcome.{Gives};
ghost use Rattle.field_schema.specs.Schema.{Fields, IsSchema, field_named, names_differ, string_field};
ghost use Rattle.field_schema.specs.ReadSchema.{schema_of, is_no_memory};
ghost use Rattle.serde_json.specs.View.{view};

use crate::field::{Field, FieldNo, FieldType};
use crate::member::field_values;
use crate::memory::NoMemory;
use crate::reading::{key_place, read_fields};
use crate::text::{Text, Texts};
use serde_json::Value;
use std::alloc::{AllocFailed, Global};
use std::marker::Model;

/// Why a value is no schema: the first fault.
#[derive(Debug, Drop)]
pub enum SchemaFault {
    /// It is no object, its `fields` is no list of at least one object, or a field lacks a text for its name or
    /// its type.
    NotObject,
    /// `uniqueKey` is missing or names no string field that is stored, indexed and single-valued.
    NoUniqueKey,
    /// The name is not of the form of names, is reserved, or is that of the 65th field.
    BadName { name: Text },
    /// The type is unknown, or a flag is neither true nor false.
    BadType { name: Text },
    /// An earlier field has the name.
    Twice { name: Text },
    /// Memory was wanting.
    NoMemory,
}

impl From<NoMemory> for SchemaFault {
    ghost use Rattle.field_schema.specs.declared.schema.SchemaFault.TheVariants.{NoMemory};

    ghost from_gives = { λ _ fault. fault ≡ NoMemory };

    fn from(_error: NoMemory) -> SchemaFault {
        SchemaFault::NoMemory
    }
}

impl<T: Drop> From<AllocFailed<T>> for SchemaFault {
    ghost use Rattle.field_schema.specs.declared.schema.SchemaFault.TheVariants.{NoMemory};

    ghost from_gives = { λ _ fault. fault ≡ NoMemory };

    fn from(_error: AllocFailed<T>) -> SchemaFault {
        SchemaFault::NoMemory
    }
}

/// A schema: 1 to 64 fields with distinct names, one of which is the unique key.
#[derive(Debug, Drop)]
pub struct Schema {
    fields: Vec<Field>,
    key: FieldNo,
}

impl Model for Schema {
    ghost use Rattle.field_schema.specs.Schema.{Fields, IsSchema};

    ghost Value = { Fields };

    ghost view = { λ s. record { list = s.fields.items; key = s.key } };

    ghost invariant = { λ s. IsSchema (record { list = s.fields.items; key = s.key }) };
}

impl Schema {
    /// The schema that a JSON value reads to, or its first fault.
    ///
    /// The value is an object with a text `uniqueKey` and a list `fields` of objects, each with texts `name` and
    /// `type` and, where they are there, truth values `multiValued` (else false), `stored` (else true) and
    /// `indexed` (else true). A type is `string`, `plong`, `boolean` or `text_general`. Other members are ignored.
    ///
    /// `NotObject` comes first; then each field in turn is looked at for `BadName`, `BadType` and `Twice`; then
    /// comes `NoUniqueKey`. `NoMemory` comes only where memory is wanting. The cost is linear in the value's
    /// fields, of which at most 64 are compared with each other by name.
    pub fn read(alloc: Global, value: &Value) -> Result<Schema, SchemaFault>
        ensures { Gives is_no_memory result (schema_of (view value.now)) }
    {
        let Some(list) = field_values(value) else {
            return Err(SchemaFault::NotObject);
        };
        let fields = read_fields(alloc, list)?;
        match key_place(fields.as_slice(), value) {
            Some(key) => Ok(Schema { fields, key }),
            None => Err(SchemaFault::NoUniqueKey),
        }
    }

    /// A schema of fields of whole texts with one value, all stored and indexed. It costs the length of the names
    /// in all.
    pub fn strings(alloc: Global, names: Texts, key: FieldNo) -> Result<Schema, NoMemory>
        requires most { length names ≤ 64 }
        requires form { IsTrue (list_all is_field_name names) }
        requires distinct { IsTrue (names_differ (map string_field names)) }
        requires key { key < length names }
        ensures fields { IfOk result (λ s. s.list ≡ map string_field names) }
        ensures key { IfOk result (λ s. s.key ≡ key) }
    {
        let fields = string_fields(alloc, names.into_vec())?;
        Ok(Schema { fields, key })
    }

    /// The place of the field of that name; None exactly where there is none. It costs a comparison a field.
    pub fn field(&self, name: &str) -> Option<FieldNo>
        ensures { result ≡ field_named name.now self.now.list }
    {
        place_of(self.fields.as_slice(), name)
    }

    /// The field at a place; None exactly where there is none. It costs nothing.
    pub fn get(&self, number: FieldNo) -> Option<&Field>
        ensures { option_copied result ≡ slice_get self.now.list number }
    {
        self.fields.get(number as usize)
    }

    /// The place of the unique key. It costs nothing.
    pub fn key_field(&self) -> FieldNo
        ensures number { result ≡ self.now.key }
        ensures lawful { IsSchema self.now }
    {
        self.key
    }

    /// The number of fields.
    pub fn len(&self) -> u32
        ensures { result ≡ length self.now.list }
    {
        self.fields.len() as u32
    }
}

// The place of the field of that name in a list.
#[tactic(auto, using(crate::proofs::Positions::position_nowhere))]
fn place_of(fields: &[Field], name: &str) -> Option<FieldNo>
    requires { length fields.now ≤ 64 }
    ensures { result ≡ field_named name.now fields.now }
{
    for (i, f) in fields.iter().enumerate() {
        if f.name.get() == name {
            return Some(i as FieldNo);
        }
    }
    None
}

// The fields of these names.
fn string_fields(alloc: Global, names: Vec<Text>) -> Result<Vec<Field>, NoMemory>
    ensures { IfOk result (λ v. v.items ≡ map string_field names.items) }
{
    let mut fields = Vec::with_capacity(alloc, names.len())?;
    for name in names {
        fields.push(Field {
            name,
            kind: FieldType::Str,
            multi: false,
            stored: true,
            indexed: true,
        })?;
    }
    Ok(fields)
}
