//! Whether one document matches a query.
ghost use Rattle.std.specs.Prelude.{◌≡◌, IfOk};
ghost use Rattle.std.specs.List.{list_all, list_any};
ghost use Rattle.query_tree.specs.KeysOfDocs.{keys_of_value};
ghost use Rattle.query_tree.specs.Matches.{has_key, matches as nested, stand_in, top};
ghost use Rattle.query_eval.specs.Sought.{seeks, says_words};

use crate::evaluating::is_negative;
use doc_model::Doc;
use field_schema::{FieldNo, Key, NoMemory, Text, tokens};
use query_tree::{End, Query};
use segment_postings::Span;
use std::alloc::Global;

// What is asked of a document's keys.
#[derive(Drop)]
pub(crate) enum Sought<'a> {
    // Any key.
    Any,
    // This one.
    This(&'a Key),
    // A string or a token that begins with a text.
    Beginning(&'a Text),
    // One between two ends.
    Between(&'a End, &'a End),
}

impl<'a> Sought<'a> {
    // Whether a key is one of those.
    fn takes(&self, key: &Key) -> bool
        ensures { result ≡ seeks self.now key.now }
    {
        match self {
            Sought::Any => true,
            Sought::This(sought) => *sought == key,
            Sought::Beginning(prefix) => {
                Span::Strings(prefix).takes(key) || Span::Tokens(prefix).takes(key)
            }
            Sought::Between(low, high) => Span::Between(low, high).takes(key),
        }
    }
}

/// Whether a document matches a query.
///
/// Fails only for want of memory. It costs a walk over the document's values in the fields that are asked
/// for, and the tokens of its texts there, once for each part of the query.
pub fn matches(alloc: Global, doc: &Doc, query: &Query) -> Result<bool, NoMemory>
    ensures { IfOk result (λ b. b ≡ top doc.now.values query.now) }
{
    match query {
        Query::Bool { must, should, not } => {
            if is_negative(must, should, not) {
                Ok(!some_hold(alloc, doc, not.as_slice())?)
            } else {
                holds(alloc, doc, query)
            }
        }
        _ => holds(alloc, doc, query),
    }
}

// Whether a document matches a query that stands inside another.
#[cycle(matching)]
fn holds(alloc: Global, doc: &Doc, query: &Query) -> Result<bool, NoMemory>
    ensures { IfOk result (λ b. b ≡ nested doc.now.values query.now) }
{
    match query {
        Query::All => Ok(true),
        Query::Exists(field) => has(alloc, doc, *field, &Sought::Any),
        Query::Term(field, key) => has(alloc, doc, *field, &Sought::This(key)),
        Query::Words(field, words) => speaks(alloc, doc, *field, words.get()),
        Query::Prefix(field, text) => has(alloc, doc, *field, &Sought::Beginning(text)),
        Query::Range(field, low, high) => has(alloc, doc, *field, &Sought::Between(low, high)),
        Query::Bool { must, should, not } => {
            if !all_hold(alloc, doc, must.as_slice())? || some_hold(alloc, doc, not.as_slice())? {
                return Ok(false);
            }
            if must.as_slice().is_empty() {
                some_hold(alloc, doc, should.as_slice())
            } else {
                Ok(true)
            }
        }
    }
}

// Whether it matches all of the queries.
#[cycle(matching)]
fn all_hold(alloc: Global, doc: &Doc, queries: &[Query]) -> Result<bool, NoMemory>
    ensures { IfOk result (λ b. b ≡ list_all (nested doc.now.values) queries.now) }
{
    for query in queries {
        if !holds(alloc, doc, query)? {
            return Ok(false);
        }
    }
    Ok(true)
}

// Whether it matches one of the queries.
#[cycle(matching)]
fn some_hold(alloc: Global, doc: &Doc, queries: &[Query]) -> Result<bool, NoMemory>
    ensures { IfOk result (λ b. b ≡ list_any (nested doc.now.values) queries.now) }
{
    for query in queries {
        if holds(alloc, doc, query)? {
            return Ok(true);
        }
    }
    Ok(false)
}

// Whether it has a key in a field that is sought.
fn has(alloc: Global, doc: &Doc, field: FieldNo, sought: &Sought) -> Result<bool, NoMemory>
    ensures { IfOk result (λ b. b ≡ has_key doc.now.values field (seeks sought.now)) }
{
    for value in doc.values(field) {
        if value_has(alloc, value, sought)? {
            return Ok(true);
        }
    }
    Ok(false)
}

// Whether a value has a key that is sought.
fn value_has(alloc: Global, value: &Key, sought: &Sought) -> Result<bool, NoMemory>
    ensures { IfOk result (λ b. b ≡ list_any (seeks sought.now) (keys_of_value value.now)) }
{
    let Key::Token(text) = value else {
        return Ok(sought.takes(value));
    };
    for token in tokens(alloc, text.get())?.into_vec() {
        if sought.takes(&Key::Token(token)) {
            return Ok(true);
        }
    }
    Ok(false)
}

// Whether the words stand in turn in one of its texts.
fn speaks(alloc: Global, doc: &Doc, field: FieldNo, words: &[Text]) -> Result<bool, NoMemory>
    ensures { IfOk result (λ b. b ≡ says_words doc.now.values field words.now) }
{
    if words.is_empty() {
        return Ok(false);
    }
    for value in doc.values(field) {
        if let Key::Token(text) = value
            && stands(words, tokens(alloc, text.get())?.get())
        {
            return Ok(true);
        }
    }
    Ok(false)
}

// Whether the words stand in turn somewhere among tokens.
fn stands(words: &[Text], tokens: &[Text]) -> bool
    ensures { result ≡ stand_in words.now tokens.now }
{
    let mut rest = tokens;
    'tokens: loop {
        if rest.starts_with(words) {
            return true;
        }
        match rest.split_first() {
            Some((_, others)) => rest = others,
            None => return false,
        }
    }
}
