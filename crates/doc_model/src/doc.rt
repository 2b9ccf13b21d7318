ghost use Rattle.std.specs.Prelude.{◌≡◌, ◌<◌, ◌≤◌, [], IfOk, IfSome, IfNone, length, map, slice_index_or};
ghost use Rattle.std.specs.Arc.{arc_value};
ghost use Rattle.field_schema.specs.Outcome.{Gives};
ghost use Rattle.field_schema.specs.Values.{values_at};
ghost use Rattle.doc_model.specs.Document.{IsIdAt, value_count};
ghost use Rattle.doc_model.specs.ReadDoc.{doc_of, is_no_memory};

use crate::object::{read_members, read_object};
use field_schema::{FieldNo, Key, NoMemory, Schema, Text};
use std::alloc::Global;
use std::marker::Model;
use std::sync::Arc;

/// Why a body is no document: the first fault. Members are looked at in the order of their names' bytes.
#[derive(Debug, Drop)]
pub enum DocFault {
    /// The body does not read as JSON nested to at most 127, or is no object.
    NotObject,
    /// The unique key's member is absent or null, or a list with no value in it.
    NoId,
    /// No field has the member's name.
    UnknownField { name: Text },
    /// A value is none that the field's type takes.
    BadValue { field: Text },
    /// Several values came to a field that takes one.
    ManyValues { field: Text },
    /// A value of a string field is longer than 32,766 bytes; the length of the first such value is told.
    TooLong { bytes: usize },
    /// Memory was wanting.
    NoMemory,
}

impl From<NoMemory> for DocFault {
    ghost use Rattle.std.specs.Prelude.{◌≡◌};
    ghost use Rattle.doc_model.specs.declared.doc.DocFault.TheVariants as fault;

    ghost from_gives = { λ _ e. e ≡ fault.NoMemory };

    fn from(_error: NoMemory) -> DocFault {
        DocFault::NoMemory
    }
}

/// A document. Contracts see for each field, in the order of the schema, the list of its values, and the text of
/// the unique key.
///
/// A value of a text field stands in it as the token of its whole text, so a document alone tells which of
/// its values are texts to be read as tokens.
#[derive(Debug, Drop)]
pub struct Doc {
    fields: Vec<Vec<Key>>,
    key: FieldNo,
}

impl Model for Doc {
    ghost use Rattle.std.specs.Prelude.{map};
    ghost use Rattle.doc_model.specs.Document.{Document, IsIdAt, with_id};

    ghost Value = { Document };

    ghost view = { λ d. with_id (map (λ v. v.items) d.fields.items) d.key };

    ghost invariant = { λ d. IsIdAt (with_id (map (λ v. v.items) d.fields.items) d.key) d.key };
}

impl Doc {
    /// The document that a body reads to, or its first fault.
    ///
    /// The body is one JSON object; of a repeated member the last one counts. A list gives its values one by
    /// one, and null gives none.
    ///
    /// - A string or text field takes texts as they stand, whole numbers by their decimal digits, and truth
    ///   values as `true` and `false`.
    /// - A number field takes whole numbers of 64 signed bits, and texts that write one, with a sign or zeros
    ///   before it or without.
    /// - A truth field takes truth values, and texts and whole numbers: these are true exactly where they begin
    ///   with `1`, `t` or `T`. So Solr's boolean fields read texts.
    /// - No field takes a number with a fraction or an exponent, an object, or a list inside a list. A number is
    ///   whole where JSON's reader keeps it in 64 bits, signed or unsigned: `-0` and `1e2` are not.
    ///
    /// Faults come in this order: `NotObject`, `NoId`, then the members by the bytes of their names, and in each
    /// `UnknownField`, `BadValue`, `ManyValues`, `TooLong`. Want of memory is told as `NoMemory` and as nothing
    /// else.
    ///
    /// It costs the body's length times the logarithm of its members, and for each member a comparison with each
    /// field's name.
    pub fn read(alloc: Global, schema: &Schema, body: &str) -> Result<Doc, DocFault>
        ensures read { Gives is_no_memory result (doc_of schema.now body.now) }
        ensures id { IfOk result (λ d. IsIdAt d schema.now.key) }
    {
        let members = read_members(alloc, body)?;
        let fields = read_object(alloc, schema, &members)?;
        Ok(Doc {
            fields,
            key: schema.key_field(),
        })
    }

    /// The text of the unique key. It costs nothing.
    pub fn id(&self) -> &Text
        ensures { result.now ≡ self.now.id }
    {
        match self.values(self.key) {
            [Key::Str(id)] => id,
            _ => unreachable!(),
        }
    }

    /// The place of the unique key's field. It costs nothing.
    pub fn key_field(&self) -> FieldNo
        ensures { IsIdAt self.now result }
    {
        self.key
    }

    /// How many fields it has. It costs nothing.
    pub fn width(&self) -> usize
        ensures { result ≡ length self.now.values }
    {
        self.fields.len()
    }

    /// The values in a field, in their order; none where there is no such field. It costs nothing.
    pub fn values(&self, field: FieldNo) -> &[Key]
        ensures { result.now ≡ values_at self.now.values field }
    {
        match self.fields.get(field as usize) {
            Some(values) => values.as_slice(),
            None => &[],
        }
    }

    /// How many values it has in all its fields together, if they are at most `most`. It costs a step a field.
    pub fn count_within(&self, most: u64) -> Option<u64>
        ensures count { IfSome result (λ n. n ≡ value_count self.now) }
        ensures few { IfSome result (λ n. n ≤ most) }
        ensures many { IfNone result (most < value_count self.now) }
    {
        let mut left = most;
        for values in &self.fields {
            let count = values.as_slice().len() as u64;
            if count > left {
                return None;
            }
            left -= count;
        }
        Some(most - left)
    }
}

/// A list of shared documents. Contracts see the list of the documents.
#[derive(Debug, Drop)]
pub struct Docs {
    items: Vec<Arc<Doc>>,
}

impl Model for Docs {
    ghost use Rattle.std.specs.Prelude.{List, map};
    ghost use Rattle.std.specs.Arc.{arc_value};
    ghost use Rattle.doc_model.specs.Document.{Document};

    ghost Value = { List Document };

    ghost view = { λ d. map arc_value d.items.items };
}

impl Docs {
    /// Wraps a vector, without memory.
    pub fn new(items: Vec<Arc<Doc>>) -> Docs
        ensures { result ≡ map arc_value items.items }
    {
        Docs { items }
    }

    /// The documents, without memory.
    pub fn get(&self) -> &[Arc<Doc>]
        ensures { map arc_value result.now ≡ self.now }
    {
        self.items.as_slice()
    }
}
