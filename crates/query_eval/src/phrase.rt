//! Phrases, by the positions of their words.
ghost use Rattle.std.specs.Prelude.{◌≡◌, ◌+◌, ◌∷◌, [], IfOk, map, filter};
ghost use Rattle.field_schema.specs.declared.key.Key.TheVariants as key;
ghost use Rattle.segment_postings.specs.Numbered.{IsNumbered};
ghost use Rattle.segment_postings.specs.Positions.{positions_of};
ghost use Rattle.query_eval.specs.Found.{Finds};
ghost use Rattle.query_eval.specs.Sought.{says_words};
ghost use Rattle.query_eval.specs.Kept.{Kept};
ghost use Rattle.query_eval.specs.Runs.{is_position, same_position, is_ahead, moved_on, from_position, begins_at};
ghost use Rattle.query_eval.specs.Runs.{PositionsRise};

use crate::keys::term;
use crate::numbers::set_of;
use doc_sets::{DocNo, DocSet};
use field_schema::{FieldNo, Key, NoMemory, Text};
use segment_postings::{Position, Reads};
use std::alloc::Global;

// The documents in one of whose texts the words stand in turn. A word alone is asked for without its positions.
pub(crate) fn phrase<P: Reads>(
    alloc: Global,
    probe: &mut P,
    field: FieldNo,
    words: &[Text],
) -> Result<DocSet, NoMemory>
    requires { IsNumbered (P.view probe.old) }
    ensures found { Finds result (λ d. says_words d.values field words.now) (P.view probe.old) }
    ensures kept { Kept P.view P.terms P.counted probe.old probe.new }
{
    match words {
        [word] => {
            let found = alone(alloc, probe, field, word)?;
            Ok(found)
        }
        _ => in_turn(alloc, probe, field, words),
    }
}

// The documents that have a word.
fn alone<P: Reads>(
    alloc: Global,
    probe: &mut P,
    field: FieldNo,
    word: &Text,
) -> Result<DocSet, NoMemory>
    requires { IsNumbered (P.view probe.old) }
    ensures found { Finds result (λ d. says_words d.values field (word.now ∷ [])) (P.view probe.old) }
    ensures kept { Kept P.view P.terms P.counted probe.old probe.new }
{
    let key = Key::Token(word.copy(alloc)?);
    let found = term(alloc, probe, field, &key)?;
    Ok(found)
}

// The documents in one of whose texts the words stand in turn. It walks the words' positions once each.
fn in_turn<P: Reads>(
    alloc: Global,
    probe: &mut P,
    field: FieldNo,
    words: &[Text],
) -> Result<DocSet, NoMemory>
    requires { IsNumbered (P.view probe.old) }
    ensures found { Finds result (λ d. says_words d.values field words.now) (P.view probe.old) }
    ensures kept { Kept P.view P.terms P.counted probe.old probe.new }
{
    let Some((first, others)) = words.split_first() else {
        return Ok(DocSet::new(alloc));
    };
    let mut held = word(alloc, probe, field, first)?;
    for (i, text) in others.iter().enumerate() {
        let next = word(alloc, probe, field, text)?;
        held = followed(alloc, held.as_slice(), next.as_slice(), i + 1)?;
    }
    let numbers = documents(alloc, held.as_slice())?;
    set_of(alloc, numbers.as_slice())
}

// The positions of a word.
fn word<P: Reads>(
    alloc: Global,
    probe: &mut P,
    field: FieldNo,
    text: &Text,
) -> Result<Vec<Position>, NoMemory>
    ensures found { IfOk result (λ v. v.items ≡ positions_of (P.view probe.old) field (key.Token text.now)) }
    ensures kept { Kept P.view P.terms P.counted probe.old probe.new }
{
    let key = Key::Token(text.copy(alloc)?);
    let mut found = Vec::new(alloc);
    probe.add_positions(&mut found, field, &key)?;
    Ok(found)
}

// Those positions that one of the next word follows, `offset` tokens on. It walks both once.
fn followed(
    alloc: Global,
    held: &[Position],
    next: &[Position],
    offset: usize,
) -> Result<Vec<Position>, NoMemory>
    requires held_rise { PositionsRise held.now }
    requires next_rise { PositionsRise next.now }
    ensures { IfOk result (λ v. v.items ≡ filter (λ p. is_position (moved_on offset p) next.now) held.now) }
{
    let mut found = Vec::new(alloc);
    let mut rest = next;
    for position in held {
        rest = skip(rest, position, offset);
        if begins_at(rest, position, offset) {
            found.push(*position)?;
        }
    }
    Ok(found)
}

// The positions from the one on that is `offset` tokens behind a position.
fn skip<'a>(others: &'a [Position], position: &Position, offset: usize) -> &'a [Position]
    ensures { result.now ≡ from_position (moved_on offset position.now) others.now }
{
    let mut rest = others;
    while let Some((first, later)) = rest.split_first() {
        if !is_short_of(first, position, offset) {
            break;
        }
        rest = later;
    }
    rest
}

// Whether the first of the positions is the one that is `offset` tokens behind a position.
fn begins_at(others: &[Position], position: &Position, offset: usize) -> bool
    ensures { result ≡ begins_at (moved_on offset position.now) others.now }
{
    match others.split_first() {
        Some((first, _)) => is_at(first, position, offset),
        None => false,
    }
}

// Whether a position is the one that is `offset` tokens behind another.
fn is_at(other: &Position, position: &Position, offset: usize) -> bool
    ensures { result ≡ same_position (moved_on offset position.now) other.now }
{
    other.doc == position.doc
        && other.value == position.value
        && other.token >= position.token
        && (other.token - position.token) as usize == offset
}

// Whether a position stands before the one that is `offset` tokens behind another.
fn is_short_of(other: &Position, position: &Position, offset: usize) -> bool
    ensures { result ≡ is_ahead other.now (moved_on offset position.now) }
{
    if other.doc != position.doc {
        return other.doc < position.doc;
    }
    if other.value != position.value {
        return other.value < position.value;
    }
    other.token < position.token || ((other.token - position.token) as usize) < offset
}

// The numbers of the positions' documents.
fn documents(alloc: Global, positions: &[Position]) -> Result<Vec<DocNo>, NoMemory>
    ensures { IfOk result (λ v. v.items ≡ map (λ p. p.doc) positions.now) }
{
    let mut numbers = Vec::with_capacity(alloc, positions.len())?;
    for position in positions {
        numbers.push(position.doc)?;
    }
    Ok(numbers)
}
