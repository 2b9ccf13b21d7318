// What values read to.
ghost use Rattle.std.specs.Prelude.{◌≡◌, IfOk, Some, option_map, map, ◌∷◌, [], take};
ghost use Rattle.std.specs.Str.{str_to_ascii_lowercase};
ghost use Rattle.query_tree.specs.declared.query.Query.TheVariants as query;
ghost use Rattle.query_text.specs.Readings.{if_indexed, indexed, kind_at, kind_for, key_of as key_of_text, term, each_word, word, prefix, end_of, range, star, word_text, value_text, words_in, words_of, value_in as value_of_what};

use crate::level::{Level, Target};
use crate::op::Op;
use field_schema::{
    Field, FieldNo, FieldType, Key, NoMemory, Schema, Text, Texts, begins_true, long_text, tokens,
};
use query_lexemes::{Bound, What};
use query_tree::{End, Queries, Query};
use std::alloc::Global;

// The indexed field of that name.
pub(crate) fn indexed(schema: &Schema, name: &str) -> Option<FieldNo>
    ensures { result ≡ indexed name.now schema.now.list }
{
    let number = schema.field(name)?;
    if_indexed(schema, number)
}

// The field, where it is indexed.
fn if_indexed(schema: &Schema, number: FieldNo) -> Option<FieldNo>
    ensures { result ≡ if_indexed schema.now.list number }
{
    match schema.get(number) {
        Some(field) if field.indexed => Some(number),
        _ => None,
    }
}

// The type of a field.
pub(crate) fn kind_at(schema: &Schema, number: FieldNo) -> FieldType
    ensures { result ≡ kind_at schema.now.list number }
{
    match schema.get(number) {
        Some(field) => field.kind,
        None => FieldType::Str,
    }
}

// The type of the field of the next value.
pub(crate) fn kind_for(schema: &Schema, level: &Level) -> Option<FieldType>
    ensures { result ≡ kind_for schema.now.list level.now }
{
    match level.field_for() {
        Some(field) => Some(kind_at(schema, field)),
        None => None,
    }
}

// The text in lower case, of ASCII's letters.
fn lower(alloc: Global, text: &Text) -> Result<Text, NoMemory>
    ensures { IfOk result (λ t. t ≡ str_to_ascii_lowercase text.now) }
{
    let lower = text.get().to_ascii_lowercase(alloc)?;
    Ok(Text::new(lower))
}

// The key of a text in a field of a type.
fn key_of(alloc: Global, kind: FieldType, text: Text) -> Result<Key, NoMemory>
    ensures { IfOk result (λ k. k ≡ key_of_text kind text) }
{
    match kind {
        FieldType::Str => Ok(Key::Str(text)),
        FieldType::Long => Ok(Key::Long(long_text(text.get()).unwrap_or(0))),
        FieldType::Bool => Ok(Key::Bool(begins_true(text.get()))),
        FieldType::Text => Ok(Key::Token(lower(alloc, &text)?)),
    }
}

// A word or a quoted text.
fn term(
    alloc: Global,
    kind: FieldType,
    field: FieldNo,
    text: Text,
    words: Texts,
) -> Result<Query, NoMemory>
    ensures { IfOk result (λ q. q ≡ term kind field text words) }
{
    if kind == FieldType::Text {
        return Ok(Query::Words(field, words));
    }
    Ok(Query::Term(field, key_of(alloc, kind, text)?))
}

// A query of one word.
fn one_word(alloc: Global, field: FieldNo, word: Text) -> Result<Query, NoMemory>
    ensures { IfOk result (λ q. q ≡ query.Words field (word ∷ [])) }
{
    let mut words = Vec::new(alloc);
    words.push(word)?;
    Ok(Query::Words(field, Texts::new(words)))
}

// A query of each of the words.
fn one_by_one(alloc: Global, field: FieldNo, words: Texts) -> Result<Vec<Query>, NoMemory>
    ensures { IfOk result (λ v. v.items ≡ map (λ w. query.Words field (w ∷ [])) words) }
{
    let mut queries = Vec::new(alloc);
    for word in words.into_vec() {
        queries.push(one_word(alloc, field, word)?)?;
    }
    Ok(queries)
}

// A query of each of the words, joined.
fn each_word(alloc: Global, op: Op, field: FieldNo, words: Texts) -> Result<Query, NoMemory>
    ensures { IfOk result (λ q. q ≡ each_word op field words) }
{
    let queries = Queries::from_vec(one_by_one(alloc, field, words)?);
    let none = Queries::new(alloc);
    let not = Queries::new(alloc);
    match op {
        Op::Or => Ok(Query::Bool {
            must: none,
            should: queries,
            not,
        }),
        Op::And => Ok(Query::Bool {
            must: queries,
            should: none,
            not,
        }),
    }
}

// A word.
fn word(
    alloc: Global,
    op: Op,
    kind: FieldType,
    field: FieldNo,
    text: Text,
    words: Texts,
) -> Result<Query, NoMemory>
    ensures { IfOk result (λ q. q ≡ word op kind field text words) }
{
    if words.get().len() > 1 {
        return each_word(alloc, op, field, words);
    }
    term(alloc, kind, field, text, words)
}

// A word that `*` follows.
fn prefix(alloc: Global, kind: FieldType, field: FieldNo, text: Text) -> Result<Query, NoMemory>
    ensures { IfOk result (λ q. q ≡ prefix kind field text) }
{
    if kind == FieldType::Text {
        return Ok(Query::Prefix(field, lower(alloc, &text)?));
    }
    Ok(Query::Prefix(field, text))
}

// An end of a range.
fn end_of(
    alloc: Global,
    kind: FieldType,
    inclusive: bool,
    text: Option<Text>,
) -> Result<End, NoMemory>
    ensures { IfOk result (λ e. e ≡ end_of kind inclusive text) }
{
    match text {
        Some(text) => Ok(End::At {
            key: key_of(alloc, kind, text)?,
            inclusive,
        }),
        None => Ok(End::Open),
    }
}

// A range.
fn range(
    alloc: Global,
    kind: FieldType,
    field: FieldNo,
    low: bool,
    from: Bound,
    to: Bound,
    high: bool,
) -> Result<Query, NoMemory>
    ensures { IfOk result (λ q. q ≡ range kind field low from.text to.text high) }
{
    if from.text.is_none() && to.text.is_none() {
        return Ok(Query::Exists(field));
    }
    let from = end_of(alloc, kind, low, from.text)?;
    let to = end_of(alloc, kind, high, to.text)?;
    Ok(Query::Range(field, from, to))
}

// `*`, where a field stands before it or not.
pub(crate) fn star(level: &Level) -> Query
    ensures { result ≡ star level.now }
{
    let field = match level.target {
        Target::Here if level.named => level.field,
        Target::To(field) => field,
        _ => None,
    };
    match field {
        Some(field) => Query::Exists(field),
        None => Query::All,
    }
}

// The text of a word that is a value.
pub(crate) fn word_text<'a>(level: &Level, what: &'a What) -> Option<&'a Text>
    ensures { option_map (λ t. t.now) result ≡ word_text level.now what.now }
{
    match what {
        What::Word(text) => Some(text),
        What::Name { text, .. } if !level.is_here() => Some(text),
        _ => None,
    }
}

// The text of a word or a quoted text.
pub(crate) fn value_text<'a>(level: &Level, what: &'a What) -> Option<&'a Text>
    ensures { option_map (λ t. t.now) result ≡ value_text level.now what.now }
{
    match what {
        What::Word(text) | What::Quoted(text) => Some(text),
        What::Name { text, .. } if !level.is_here() => Some(text),
        _ => None,
    }
}

// The tokens of a word or a quoted text in a field of tokens.
pub(crate) fn words_of(
    alloc: Global,
    schema: &Schema,
    level: &Level,
    what: &What,
) -> Result<Texts, NoMemory>
    ensures { IfOk result (λ w. w ≡ words_of schema.now.list level.now what.now) }
{
    match (kind_for(schema, level), value_text(level, what)) {
        (Some(FieldType::Text), Some(text)) => tokens(alloc, text.get()),
        _ => Ok(Texts::new(Vec::new(alloc))),
    }
}

// A value in a field, given its tokens.
#[tactic(auto, unfolding(crate::specs::Readings::value_in))]
pub(crate) fn value_in(
    alloc: Global,
    op: Op,
    kind: FieldType,
    field: FieldNo,
    what: What,
    words: Texts,
) -> Result<Query, NoMemory>
    ensures { IfOk result (λ q. q ≡ value_of_what op kind field what words) }
{
    match what {
        What::Word(text) => word(alloc, op, kind, field, text, words),
        What::Prefix(text) => prefix(alloc, kind, field, text),
        What::Quoted(text) => term(alloc, kind, field, text, words),
        What::Range {
            low,
            from,
            to,
            high,
        } => range(alloc, kind, field, low, from, to, high),
        _ => Ok(Query::All),
    }
}
