// Words, operators and `*`.
ghost use Rattle.std.specs.Prelude.{◌≡◌, IfOk, Some, ◌||◌};
ghost use Rattle.query_lexemes.specs.Letters.{text_of as text_of_letters, at_front, stands, spoils, begins_word, is_lone};
ghost use Rattle.query_lexemes.specs.Lexemes.{operator_named, operator_of, is_filter, behind, spoiling, prefix, plain_word, word as word_of, is_value, opens, begins_other, star};

use crate::fault::QueryFault;
use crate::letter::{
    Class, Letter, begins_lone, begins_with, has_escape, place, skip, split_run, tail, text_of,
};
use crate::lexeme::{Lexeme, Operator, What};
use field_schema::{NoMemory, Text};
use std::alloc::Global;

fn operator_named(text: &str) -> Option<Operator>
    ensures { result ≡ operator_named text.now }
{
    match text {
        "AND" => Some(Operator::And),
        "&&" => Some(Operator::And),
        "OR" => Some(Operator::Or),
        "||" => Some(Operator::Or),
        "NOT" => Some(Operator::Not),
        _ => None,
    }
}

// The operator that a word is, given its text.
#[tactic(auto, unfolding(crate::specs::Lexemes::operator_of))]
fn operator_of(word: &[Letter], text: &str) -> Option<Operator>
    requires { text.now ≡ text_of_letters word.now }
    ensures { result ≡ operator_of word.now }
{
    if has_escape(word) {
        return None;
    }
    operator_named(text)
}

// Whether a word is `filter` with `(` directly behind it, given its text.
#[tactic(auto, unfolding(crate::specs::Lexemes::is_filter))]
fn is_filter(word: &[Letter], text: &str, rest: &[Letter]) -> bool
    requires { text.now ≡ text_of_letters word.now }
    ensures { result ≡ is_filter word.now rest.now }
{
    !has_escape(word) && text == "filter" && begins_with(rest, '(')
}

// The place of the first byte that does not go on an operator as a word; none where it has its own fault.
fn behind(end: usize, rest: &[Letter]) -> Option<usize>
    ensures { result ≡ behind end rest.now }
{
    match rest.first() {
        Some(l) if l.is_unsupported() => None,
        Some(l) => Some(l.odd),
        None => Some(end),
    }
}

// A fault where something spoils the `*` at a place.
fn spoiling(at: usize, rest: &[Letter]) -> Option<QueryFault>
    ensures { result ≡ spoiling at rest.now }
{
    match rest.first() {
        Some(l) if l.spoils() => Some(QueryFault::Unsupported { at }),
        _ => None,
    }
}

// A word at a place, and what stands behind it.
#[tactic(auto, unfolding(crate::specs::Lexemes::word))]
pub(crate) fn word<'a>(
    alloc: Global,
    end: usize,
    at: usize,
    word: &'a [Letter],
    rest: &'a [Letter],
) -> Result<(Lexeme, &'a [Letter]), NoMemory>
    ensures { IfOk result (λ r. (r.0, r.1.now) ≡ word_of end at word.now rest.now) }
{
    if begins_lone(rest) {
        let wrong = Some(QueryFault::Syntax { at: end });
        return Ok((
            Lexeme {
                at,
                what: What::Half,
                wrong,
            },
            &[],
        ));
    }
    let text = text_of(alloc, word)?;
    match operator_of(word, text.get()) {
        Some(operator) => {
            let behind = behind(end, rest);
            let what = What::Operator { operator, behind };
            Ok((
                Lexeme {
                    at,
                    what,
                    wrong: None,
                },
                rest,
            ))
        }
        None => Ok(plain_word(end, at, word, text, rest)),
    }
}

// A word that is no operator, and what stands behind it.
#[tactic(auto, unfolding(crate::specs::Lexemes::plain_word, crate::specs::Lexemes::prefix))]
fn plain_word<'a>(
    end: usize,
    at: usize,
    word: &'a [Letter],
    text: Text,
    rest: &'a [Letter],
) -> (Lexeme, &'a [Letter])
    requires { text ≡ text_of_letters word.now }
    ensures { (result.0, result.1.now) ≡ plain_word end at word.now rest.now }
{
    if begins_with(rest, '*') {
        let behind = tail(rest);
        let wrong = spoiling(place(end, rest), behind);
        return (
            Lexeme {
                at,
                what: What::Prefix(text),
                wrong,
            },
            behind,
        );
    }
    let colon = skip(rest);
    if begins_with(colon, ':') {
        let what = What::Name {
            text,
            colon: place(end, colon),
        };
        return (
            Lexeme {
                at,
                what,
                wrong: None,
            },
            tail(colon),
        );
    }
    if is_filter(word, text.get(), rest) {
        let wrong = Some(QueryFault::Unsupported { at });
        return (
            Lexeme {
                at,
                what: What::Half,
                wrong,
            },
            rest,
        );
    }
    (
        Lexeme {
            at,
            what: What::Word(text),
            wrong: None,
        },
        rest,
    )
}

// Whether a word is a value.
#[tactic(auto, unfolding(crate::specs::Lexemes::is_value))]
fn is_value(alloc: Global, word: &[Letter], rest: &[Letter]) -> Result<bool, NoMemory>
    ensures { IfOk result (λ b. b ≡ is_value word.now rest.now) }
{
    if begins_lone(rest) {
        return Ok(true);
    }
    let text = text_of(alloc, word)?;
    Ok(operator_of(word, text.get()).is_none() && !is_filter(word, text.get(), rest))
}

// Whether a word begins here.
pub(crate) fn starts_word(letters: &[Letter]) -> bool
    ensures { result ≡ at_front (λ l. begins_word l || is_lone l) letters.now }
{
    match letters.first() {
        Some(l) => l.begins_word() || l.is_lone(),
        None => false,
    }
}

// Whether a quoted text, a range or `(` begins here.
fn opens(letters: &[Letter]) -> bool
    ensures { result ≡ at_front opens letters.now }
{
    match letters.first() {
        Some(l) => l.is('"') || l.is('[') || l.is('{') || l.is('('),
        None => false,
    }
}

// Whether a value other than `*` begins here.
#[tactic(auto, unfolding(crate::specs::Lexemes::begins_other))]
fn begins_other(alloc: Global, letters: &[Letter]) -> Result<bool, NoMemory>
    ensures { IfOk result (λ b. b ≡ begins_other letters.now) }
{
    if starts_word(letters) {
        let (word, rest) = split_run(Class::Word, letters);
        return is_value(alloc, word, rest);
    }
    Ok(opens(letters))
}

// A `*` at a place, with the letters behind it, and what stands behind the lexeme.
#[tactic(auto, unfolding(crate::specs::Lexemes::star))]
pub(crate) fn star<'a>(
    alloc: Global,
    end: usize,
    at: usize,
    rest: &'a [Letter],
) -> Result<(Lexeme, &'a [Letter]), NoMemory>
    ensures { IfOk result (λ r. (r.0, r.1.now) ≡ star end at rest.now) }
{
    let colon = skip(rest);
    if begins_with(colon, ':') {
        let behind = tail(colon);
        let other = begins_other(alloc, skip(behind))?;
        let what = What::Any {
            colon: place(end, colon),
            other,
        };
        return Ok((
            Lexeme {
                at,
                what,
                wrong: None,
            },
            behind,
        ));
    }
    let wrong = spoiling(at, rest);
    Ok((
        Lexeme {
            at,
            what: What::Star,
            wrong,
        },
        rest,
    ))
}
