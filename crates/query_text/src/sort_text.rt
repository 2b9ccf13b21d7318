// Sort texts read to sorts.
ghost use Rattle.std.specs.Prelude.{◌≡◌, ◌∷◌, [], ◌++◌, ◌||◌, Ok, Err, OnOk, IfErr, IsTrue, MatchResult, ⊤, option_to_list};
ghost use Rattle.std.specs.Bool.{MatchBool};
ghost use Rattle.field_schema.specs.Outcome.{Gives};
ghost use Rattle.query_text.specs.Readings.{is_text};
ghost use Rattle.query_text.specs.Sorts.{is_no_sort_memory, sort_by, item_keys, letters_sort, sort_of};

use field_schema::{Field, FieldType, NoMemory, Schema};
use query_lexemes::{Letter, SortItem, behind_white, plain_letters, sort_item};
use query_tree::{Sort, SortBy, SortKey};
use std::alloc::Global;

/// What is wrong with a sort text, and where: `at` is a byte's place in the text, from 0.
///
/// Of the faults of a text the one with the least place counts, and at one place the first of
/// these.
#[derive(Clone, Copy, Debug, PartialEq, Eq)]
pub enum SortFault {
    /// The text fits no form from here on, or ends unfinished.
    BadSort { at: usize },
    /// The name is no field's, and neither `score` nor `_docid_`.
    UnknownField { at: usize },
    /// The field has tokens or several values.
    NotSortable { at: usize },
    /// Memory was wanting.
    NoMemory,
}

impl From<NoMemory> for SortFault {
    ghost use Rattle.std.specs.Prelude.{◌≡◌};
    ghost use Rattle.query_text.specs.declared.sort_text.SortFault.TheVariants as fault;

    ghost from_gives = { λ _ e. e ≡ fault.NoMemory };

    fn from(_error: NoMemory) -> SortFault {
        SortFault::NoMemory
    }
}

// To sort by a field.
fn by_field(field: &Field) -> bool
    ensures { result ≡ (is_text field.now.kind || field.now.multi) }
{
    field.kind == FieldType::Text || field.multi
}

// What a name at a place sorts by; nothing where it is `score`.
#[tactic(auto, unfolding(crate::specs::Sorts::sort_by))]
fn sort_by(schema: &Schema, at: usize, name: &str) -> Result<Option<SortBy>, SortFault>
    ensures { result ≡ sort_by schema.now.list at name.now }
{
    if name == "score" {
        return Ok(None);
    }
    if name == "_docid_" {
        return Ok(Some(SortBy::DocId));
    }
    let Some(number) = schema.field(name) else {
        return Err(SortFault::UnknownField { at });
    };
    match schema.get(number) {
        Some(field) if by_field(field) => Err(SortFault::NotSortable { at }),
        Some(_) => Ok(Some(SortBy::Field(number))),
        None => Err(SortFault::UnknownField { at }),
    }
}

// The key of an item; none where it is `score`.
#[tactic(auto, unfolding(crate::specs::Sorts::item_keys))]
fn item_key(schema: &Schema, item: &SortItem) -> Result<Option<SortKey>, SortFault>
    ensures { MatchResult result
        (λ k. item_keys schema.now.list item.now ≡ Ok (option_to_list k))
        (λ e. item_keys schema.now.list item.now ≡ Err e) }
{
    if item.name.get().is_empty() {
        return Err(SortFault::BadSort { at: item.at });
    }
    let by = sort_by(schema, item.at, item.name.get())?;
    match (by, item.way) {
        (_, Err(at)) => Err(SortFault::BadSort { at }),
        (None, Ok(_)) => Ok(None),
        (Some(by), Ok(down)) => Ok(Some(SortKey { by, down })),
    }
}

fn push(keys: &mut Vec<SortKey>, key: SortKey) -> Result<(), NoMemory>
    ensures { OnOk result (keys.new.items ≡ keys.old.items ++ key ∷ []) }
{
    keys.push(key)?;
    Ok(())
}

// Puts a key behind the others, where there is one.
fn add_key(keys: &mut Vec<SortKey>, key: Option<SortKey>) -> Result<(), SortFault>
    ensures ok { OnOk result (keys.new.items ≡ keys.old.items ++ option_to_list key) }
    ensures err { IfErr result (λ e. IsTrue (is_no_sort_memory e)) }
{
    if let Some(key) = key {
        push(keys, key)?;
    }
    Ok(())
}

// The keys of letters.
#[tactic(auto, unfolding(crate::specs::Sorts::letters_sort))]
fn read_keys(
    alloc: Global,
    schema: &Schema,
    end: usize,
    letters: &[Letter],
) -> Result<Vec<SortKey>, SortFault>
    ensures { MatchResult result (λ v. letters_sort schema.now.list end letters.now ≡ Ok v.items)
        (λ e. MatchBool (is_no_sort_memory e) ⊤
        (letters_sort schema.now.list end letters.now ≡ Err e)) }
{
    let mut keys = Vec::new(alloc);
    if behind_white(letters).is_empty() {
        return Ok(keys);
    }
    let mut rest = letters;
    for turn in 0..letters.len() + 1 {
        let (item, behind) = match sort_item(alloc, end, rest) {
            Ok(read) => read,
            Err(NoMemory) => return Err(SortFault::NoMemory),
        };
        let key = match item_key(schema, &item) {
            Ok(key) => key,
            Err(fault) => return Err(fault),
        };
        add_key(&mut keys, key)?;
        if !item.more {
            return Ok(keys);
        }
        rest = behind;
    }
    Ok(keys)
}

/// The sort of a text: names, each with `asc` or `desc`, with commas between them; `score` adds
/// nothing.
///
/// A field need not be indexed or stored to sort by. The fault that counts is the one with the least
/// place in the text, and at one place the first of the variants. `NoMemory` comes only where memory
/// is wanting. It costs the text's length, and for each item a comparison a field.
pub fn read_sort(alloc: Global, schema: &Schema, text: &str) -> Result<Sort, SortFault>
    ensures { Gives is_no_sort_memory result (sort_of schema.now.list text.now) }
{
    let letters = plain_letters(alloc, text)?;
    let keys = read_keys(alloc, schema, text.len(), letters.as_slice())?;
    Ok(Sort::new(keys))
}
