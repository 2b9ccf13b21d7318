// The items of a sort text.
ghost use Rattle.std.specs.Prelude.{◌≡◌, IfOk, Ok, Err, MatchResult, codes};
ghost use Rattle.query_lexemes.specs.Letters.{at_front, text_of as text_of_letters, skip};
ghost use Rattle.query_lexemes.specs.SortItems.{is_either, behind_letters, direction, undirected, closed_item, directed_item, named_item, sort_item as item_of};

use crate::letter::{
    Class, Letter, begins_blank, begins_with, odd_place, place, skip, split_run, tail, text_of,
};
use field_schema::{NoMemory, Text};
use std::alloc::Global;

/// An item of a sort text.
#[derive(Debug, Drop)]
pub struct SortItem {
    /// The place of its first byte in the text.
    pub at: usize,
    /// The name; empty where there is none.
    pub name: Text,
    /// Whether it goes down, or the place of the first byte that fits no continuation.
    pub way: Result<bool, usize>,
    /// Whether a comma stands behind it.
    pub more: bool,
}

/// The letters without the white space in front.
pub fn behind_white(letters: &[Letter]) -> &[Letter]
    ensures { result.now ≡ skip letters.now }
{
    skip(letters)
}

// Whether the first letter is this one in either case.
fn begins_either(letters: &[Letter], c: char) -> bool
    ensures { result ≡ at_front (is_either c) letters.now }
{
    match letters.first() {
        Some(l) => !l.escaped && l.code.to_ascii_lowercase() == c,
        None => false,
    }
}

// What stands behind `sc` in either case, or the place of the first byte that does not go on it.
#[tactic(auto, unfolding(crate::specs::SortItems::behind_letters))]
fn behind_sc(end: usize, letters: &[Letter]) -> Result<&[Letter], usize>
    ensures { MatchResult result (λ rest. behind_letters end (codes "sc") letters.now ≡ Ok rest.now)
        (λ p. behind_letters end (codes "sc") letters.now ≡ Err p) }
{
    if !begins_either(letters, 's') {
        return Err(place(end, letters));
    }
    let second = tail(letters);
    if !begins_either(second, 'c') {
        return Err(place(end, second));
    }
    Ok(tail(second))
}

// The same of `esc`.
#[tactic(auto, unfolding(crate::specs::SortItems::behind_letters))]
fn behind_esc(end: usize, letters: &[Letter]) -> Result<&[Letter], usize>
    ensures { MatchResult result (λ rest. behind_letters end (codes "esc") letters.now ≡ Ok rest.now)
        (λ p. behind_letters end (codes "esc") letters.now ≡ Err p) }
{
    if !begins_either(letters, 'e') {
        return Err(place(end, letters));
    }
    behind_sc(end, tail(letters))
}

// A direction and the letters behind it, or the place of its fault.
type Way<'a> = Result<(bool, &'a [Letter]), usize>;

// `asc` or `desc` in either case.
#[tactic(auto, unfolding(crate::specs::SortItems::direction))]
fn direction(end: usize, letters: &[Letter]) -> Way<'_>
    ensures { MatchResult result
        (λ d. direction end letters.now ≡ Ok (d.0, d.1.now)) (λ p. direction end letters.now ≡ Err p) }
{
    if begins_either(letters, 'a') {
        return match behind_sc(end, tail(letters)) {
            Ok(rest) => Ok((false, rest)),
            Err(p) => Err(p),
        };
    }
    if begins_either(letters, 'd') {
        return match behind_esc(end, tail(letters)) {
            Ok(rest) => Ok((true, rest)),
            Err(p) => Err(p),
        };
    }
    Err(odd_place(end, letters))
}

// An item whose direction goes wrong at a place.
fn undirected<'a>(at: usize, name: Text, place: usize) -> (SortItem, &'a [Letter])
    ensures { (result.0, result.1.now) ≡ undirected at name place }
{
    let way = Err(place);
    (
        SortItem {
            at,
            name,
            way,
            more: false,
        },
        &[],
    )
}

// An item behind its direction.
#[tactic(auto, unfolding(crate::specs::SortItems::closed_item))]
fn closed_item(
    end: usize,
    at: usize,
    name: Text,
    down: bool,
    rest: &[Letter],
) -> (SortItem, &[Letter])
    ensures { (result.0, result.1.now) ≡ closed_item end at name down rest.now }
{
    if begins_with(rest, ',') {
        return (
            SortItem {
                at,
                name,
                way: Ok(down),
                more: true,
            },
            tail(rest),
        );
    }
    if rest.is_empty() {
        return (
            SortItem {
                at,
                name,
                way: Ok(down),
                more: false,
            },
            &[],
        );
    }
    undirected(at, name, odd_place(end, rest))
}

// An item at a place, of a name and what stands behind it.
#[tactic(auto, unfolding(crate::specs::SortItems::named_item, crate::specs::SortItems::directed_item))]
fn named_item<'a>(
    alloc: Global,
    end: usize,
    at: usize,
    word: &'a [Letter],
    rest: &'a [Letter],
) -> Result<(SortItem, &'a [Letter]), NoMemory>
    ensures { IfOk result (λ r. (r.0, r.1.now) ≡ named_item end at word.now rest.now) }
{
    let name = text_of(alloc, word)?;
    if !begins_blank(rest) {
        return Ok(undirected(at, name, place(end, rest)));
    }
    match direction(end, skip(rest)) {
        Ok((down, rest)) => Ok(closed_item(end, at, name, down, skip(rest))),
        Err(p) => Ok(undirected(at, name, p)),
    }
}

/// The item that the letters begin with behind white space, and the letters behind its comma.
///
/// `end` is the length of the text. It costs the item's length.
#[tactic(auto, unfolding(crate::specs::SortItems::sort_item))]
pub fn sort_item(
    alloc: Global,
    end: usize,
    letters: &[Letter],
) -> Result<(SortItem, &[Letter]), NoMemory>
    ensures { IfOk result (λ r. (r.0, r.1.now) ≡ item_of end letters.now) }
{
    let here = skip(letters);
    let (name, rest) = split_run(Class::Name, here);
    named_item(alloc, end, place(end, here), name, rest)
}
