// The lexeme that letters begin with.
ghost use Rattle.std.specs.Prelude.{◌≡◌, IfOk};
ghost use Rattle.query_lexemes.specs.Letters.{skip};
ghost use Rattle.query_lexemes.specs.Lexemes.{flaw, special, lexeme as lexeme_of};

use crate::fault::QueryFault;
use crate::letter::{Class, Letter, skip, split_run};
use crate::lexeme::{Lexeme, What};
use crate::range::{quoted, range};
use crate::word::{star, word};
use field_schema::NoMemory;
use std::alloc::Global;

// A lexeme of one letter.
fn one<'a>(
    at: usize,
    what: What,
    wrong: Option<QueryFault>,
    rest: &'a [Letter],
) -> (Lexeme, &'a [Letter])
    ensures lexeme { result.0 ≡ record { at = at; what = what; wrong = wrong } }
    ensures rest { result.1.now ≡ rest.now }
{
    (Lexeme { at, what, wrong }, rest)
}

// A special character, and what it begins.
#[tactic(auto, unfolding(crate::specs::Lexemes::special))]
fn special<'a>(
    alloc: Global,
    end: usize,
    l: Letter,
    rest: &'a [Letter],
) -> Result<(Lexeme, &'a [Letter]), NoMemory>
    ensures { IfOk result (λ r. (r.0, r.1.now) ≡ special end l rest.now) }
{
    match l.code {
        '+' => Ok(one(l.at, What::Sign { prohibits: false }, None, rest)),
        '-' | '!' => Ok(one(l.at, What::Sign { prohibits: true }, None, rest)),
        '(' => Ok(one(l.at, What::Opening, None, rest)),
        ')' => Ok(one(l.at, What::Closing, None, rest)),
        '"' => quoted(alloc, end, l.at, rest),
        '[' => range(alloc, end, l.at, true, rest),
        '{' => range(alloc, end, l.at, false, rest),
        '*' => star(alloc, end, l.at, rest),
        _ => Ok(flaw(l, rest)),
    }
}

// A character that begins no part.
fn flaw(l: Letter, rest: &[Letter]) -> (Lexeme, &[Letter])
    ensures { (result.0, result.1.now) ≡ flaw l rest.now }
{
    let at = l.at;
    let fault = if l.is_unsupported() {
        QueryFault::Unsupported { at }
    } else {
        QueryFault::Syntax { at }
    };
    one(at, What::Flaw, Some(fault), rest)
}

// The lexeme that the letters begin with, and what stands behind it.
#[tactic(auto, unfolding(crate::specs::Lexemes::lexeme))]
fn lexeme_here(
    alloc: Global,
    end: usize,
    letters: &[Letter],
) -> Result<(Lexeme, &[Letter]), NoMemory>
    ensures { IfOk result (λ r. (r.0, r.1.now) ≡ lexeme_of end letters.now) }
{
    let Some((l, rest)) = letters.split_first() else {
        return Ok(one(end, What::Finish, None, &[]));
    };
    if l.begins_word() || l.is_lone() {
        let (run, behind) = split_run(Class::Word, letters);
        return word(alloc, end, l.at, run, behind);
    }
    special(alloc, end, *l, rest)
}

/// The lexeme that the letters begin with behind white space, and the letters behind it.
///
/// `end` is the length of the text. At the end of the text it is [`What::Finish`]. It costs the lexeme's length.
pub fn next_lexeme(
    alloc: Global,
    end: usize,
    letters: &[Letter],
) -> Result<(Lexeme, &[Letter]), NoMemory>
    ensures { IfOk result (λ r. (r.0, r.1.now) ≡ lexeme_of end (skip letters.now)) }
{
    lexeme_here(alloc, end, skip(letters))
}
