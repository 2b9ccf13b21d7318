//! Where keys stand in documents.
ghost use Rattle.std.specs.Prelude.{◌≡◌, ◌≤◌, ◌++◌, IfOk, OnOk, not, map, filter, length};
ghost use Rattle.std.specs.Arc.{arc_value};
ghost use Rattle.std.specs.List.{enumerate_from, flat_map};
ghost use Rattle.doc_sets.specs.declared.TheConstants.{MAX_DOCS};
ghost use Rattle.segment_postings.specs.Segments.{IsIndex, of_value, of_tokens, occurrences};

use crate::laid::Laid;
use doc_model::Doc;
use doc_sets::MAX_DOCS;
use field_schema::{FieldNo, Key, NoMemory, Text, tokens};
use std::alloc::Global;
use std::sync::Arc;

/// A place of a key: the document's place in its segment, the value's among the document's values in the field, and
/// the key's among the value's keys.
#[derive(Clone, Copy, Debug)]
pub(crate) struct Place {
    pub doc: u32,
    pub value: u32,
    pub token: u32,
}

/// A key at a place. The order is that of the keys alone.
#[derive(Debug, Drop)]
#[derive_where(PartialEq, Eq, PartialOrd, Ord)]
pub(crate) struct Occurrence {
    pub key: Key,
    #[derive_where(skip(EqHashOrd))]
    pub place: Place,
}

/// What stands in a field of the documents, ordered by key, and for each key as in the documents.
///
/// It costs the field's keys, times the logarithm of their count.
pub(crate) fn index(alloc: Global, docs: &[Arc<Doc>], field: FieldNo) -> Result<Laid, NoMemory>
    requires { length docs.now ≤ MAX_DOCS }
    ensures { IfOk result (λ os. IsIndex (map arc_value docs.now) field os) }
{
    let mut found = collect(alloc, docs, field)?;
    found.sort()?;
    let laid = Laid::new(alloc, found.as_slice())?;
    Ok(laid)
}

// What stands in a field of the documents, in their order.
fn collect(alloc: Global, docs: &[Arc<Doc>], field: FieldNo) -> Result<Vec<Occurrence>, NoMemory>
    requires { length docs.now ≤ MAX_DOCS }
    ensures { IfOk result (λ os. os.items ≡ occurrences field (map arc_value docs.now)) }
{
    let mut found = Vec::new(alloc);
    for (number, doc) in docs.iter().enumerate() {
        add_values(alloc, &mut found, number as u32, doc.values(field))?;
    }
    Ok(found)
}

// Adds the keys of a document's values.
#[tactic(auto, using(crate::proofs::Occurrences::numbered_more))]
fn add_values(
    alloc: Global,
    found: &mut Vec<Occurrence>,
    doc: u32,
    values: &[Key],
) -> Result<(), NoMemory>
    ensures { OnOk result (found.new.items ≡ found.old.items ++ flat_map (of_value doc) (enumerate_from 0 values.now)) }
{
    for (i, value) in values.iter().enumerate() {
        let Ok(number) = u32::try_from(i) else {
            return Err(NoMemory);
        };
        add_value(alloc, found, doc, number, value)?;
    }
    Ok(())
}

// Adds the keys of a value: a text's tokens, or the value itself.
#[tactic(auto, using(crate::proofs::Occurrences::tokens_of_value))]
fn add_value(
    alloc: Global,
    found: &mut Vec<Occurrence>,
    doc: u32,
    value: u32,
    key: &Key,
) -> Result<(), NoMemory>
    ensures { OnOk result (found.new.items ≡ found.old.items ++ of_value doc (value, key.now)) }
{
    match key {
        Key::Token(text) => {
            let tokens = tokens(alloc, text.get())?;
            add_tokens(found, doc, value, tokens.into_vec())
        }
        Key::Str(_) | Key::Long(_) | Key::Bool(_) => {
            let key = key.copy(alloc)?;
            let place = Place {
                doc,
                value,
                token: 0,
            };
            found.push(Occurrence { key, place })?;
            Ok(())
        }
    }
}

// Adds the tokens of a text.
fn add_tokens(
    found: &mut Vec<Occurrence>,
    doc: u32,
    value: u32,
    tokens: Vec<Text>,
) -> Result<(), NoMemory>
    ensures { OnOk result (found.new.items ≡ found.old.items ++ of_tokens doc value tokens.items) }
{
    for (i, text) in tokens.into_iter().enumerate() {
        let Ok(token) = u32::try_from(i) else {
            return Err(NoMemory);
        };
        let key = Key::Token(text);
        let place = Place { doc, value, token };
        found.push(Occurrence { key, place })?;
    }
    Ok(())
}
