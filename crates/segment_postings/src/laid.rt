//! The keys of a field, each once, and their places in one row.
ghost use Rattle.std.specs.Prelude.{◌≡◌, ◌-◌, ◌<◌, ◌≤◌, ◌++◌, [], true, IfOk, OnOk, map, filter, fold, take, drop, length, not};
ghost use Rattle.std.specs.List.{list_all};
ghost use Rattle.std.specs.List.Sorted.{IsSortedByKey};
ghost use Rattle.field_schema.specs.Keys.{key_cmp};
ghost use Rattle.segment_postings.specs.Segments.{with_key};
ghost use Rattle.segment_postings.specs.Spans.{takes, begins_behind};
ghost use Rattle.segment_postings.specs.Terms.{Ascending, is_before, put_key, begins_with};
ghost use Rattle.segment_postings.specs.Layout.{IsLaid, own_places, add_term, ends_with, first_places, start_of};
ghost use Rattle.segment_postings.specs.Renumbering.{IsJoined};

use crate::combining::{behind, least, own, put_term};
use crate::occurrence::{Occurrence, Place};
use crate::renumbering::add_moved;
use crate::span::Span;
use crate::terms::join;
use field_schema::{Key, NoMemory};
use std::alloc::Global;
use std::marker::Model;

/// A key, and where its places begin. They end where those of the next begin.
#[derive(Debug, Drop)]
pub(crate) struct Term {
    pub key: Key,
    pub start: usize,
}

/// Keys with their places. Contracts see each key at each of its places, in the order of the keys.
#[derive(Debug, Drop)]
pub(crate) struct Laid {
    terms: Vec<Term>,
    places: Vec<Place>,
}

impl Model for Laid {
    ghost use Rattle.std.specs.Prelude.{List, map};
    ghost use Rattle.segment_postings.specs.declared.occurrence.Occurrence.{Occurrence};
    ghost use Rattle.segment_postings.specs.Terms.{Ascending};
    ghost use Rattle.segment_postings.specs.Layout.{spelled, IsLaid};

    ghost Value = { List Occurrence };

    ghost view = { λ l. spelled l.terms.items l.places.items };

    ghost invariant = { λ l. IsLaid l.terms.items l.places.items × Ascending (map (λ t. t.key) l.terms.items) };
}

impl Laid {
    /// Lays out sorted occurrences. It costs their number, and a copy of each key.
    pub fn new(alloc: Global, found: &[Occurrence]) -> Result<Laid, NoMemory>
        requires { IsSortedByKey (λ o. o.key) key_cmp found.now }
        ensures { IfOk result (λ l. l ≡ found.now) }
    {
        let mut terms = Vec::new(alloc);
        let mut places = Vec::with_capacity(alloc, found.len())?;
        for occurrence in found {
            add_term(alloc, &mut terms, &occurrence.key, places.len())?;
            places.push(occurrence.place)?;
        }
        Ok(Laid { terms, places })
    }

    /// No key.
    pub fn empty(alloc: Global) -> Laid
        ensures { result ≡ [] }
    {
        Laid {
            terms: Vec::new(alloc),
            places: Vec::new(alloc),
        }
    }

    /// The keys of two segments, of which the documents get new numbers, as those of one. A key of which no document stays
    /// is left out. It costs the keys and places of both, and a copy of each key.
    pub fn joined(
        alloc: Global,
        first: &Laid,
        first_moves: &[Option<u32>],
        second: &Laid,
        second_moves: &[Option<u32>],
    ) -> Result<Laid, NoMemory>
        ensures { IfOk result (λ l. IsJoined first.now first_moves.now second.now second_moves.now l) }
    {
        let mut terms = Vec::new(alloc);
        let mut places = Vec::new(alloc);
        let (first_places, second_places) = (first.places.as_slice(), second.places.as_slice());
        let mut left = first.terms.as_slice();
        let mut right = second.terms.as_slice();
        'keys: loop {
            let Some(key) = least(left, right) else {
                return Ok(Laid { terms, places });
            };
            let start = places.len();
            add_moved(&mut places, own(left, first_places, key), first_moves)?;
            add_moved(&mut places, own(right, second_places, key), second_moves)?;
            put_term(alloc, &mut terms, key, start, places.len())?;
            left = behind(left, key);
            right = behind(right, key);
        }
    }

    /// The places of a key. It costs the logarithm of the number of keys.
    pub fn places(&self, key: &Key) -> &[Place]
        ensures { result.now ≡ map (λ o. o.place) (with_key key.now self.now) }
    {
        let rest = from_term(self.terms.as_slice(), key);
        if !begins_with(rest, key) {
            return &[];
        }
        first_places(rest, self.places.as_slice())
    }

    /// The places of the keys that a span takes, key after key. It costs the logarithm of the number of keys.
    pub fn places_within(&self, span: &Span) -> &[Place]
        ensures { result.now ≡ map (λ o. o.place) (filter (λ o. takes span.now o.key) self.now) }
    {
        let places = self.places.as_slice();
        let from = from_span(self.terms.as_slice(), span);
        let behind = behind_span(from, span);
        part(places, start_of(from, places), start_of(behind, places))
    }

    /// Puts the keys at or after a key among ascending ones, and keeps the first `most` of all.
    ///
    /// It costs the logarithm of the number of keys, and those that come among the first.
    pub fn add_terms(
        &self,
        alloc: Global,
        found: &mut Vec<Key>,
        from: &Key,
        most: usize,
    ) -> Result<(), NoMemory>
        requires ascending { Ascending found.old.items }
        requires few { length found.old.items ≤ most }
        ensures found { OnOk result (found.new.items ≡ take most
            (fold put_key found.old.items (filter (λ k. not (is_before k from.now)) (map (λ o. o.key) self.now)))) }
        ensures ascending { OnOk result (Ascending found.new.items) }
        ensures few { OnOk result (length found.new.items ≤ most) }
    {
        let rest = from_term(self.terms.as_slice(), from);
        join(alloc, found, rest, most)?;
        Ok(())
    }
}

// Adds a key behind the others, where it is not the last of them.
fn add_term(alloc: Global, terms: &mut Vec<Term>, key: &Key, start: usize) -> Result<(), NoMemory>
    ensures { OnOk result (terms.new.items ≡ add_term terms.old.items key.now start) }
{
    if ends_with(terms, key) {
        return Ok(());
    }
    let key = key.copy(alloc)?;
    terms.push(Term { key, start })?;
    Ok(())
}

// Whether a key is the last one.
fn ends_with(terms: &[Term], key: &Key) -> bool
    ensures { result ≡ ends_with key.now terms.now }
{
    match terms {
        [.., last] => last.key == *key,
        [] => false,
    }
}

// Whether a key is the first one.
pub(crate) fn begins_with(terms: &[Term], key: &Key) -> bool
    ensures { result ≡ begins_with key.now (map (λ t. t.key) terms.now) }
{
    match terms {
        [first, ..] => *key == first.key,
        [] => false,
    }
}

// The keys at or after a key.
fn from_term<'a>(terms: &'a [Term], key: &Key) -> &'a [Term]
    requires { Ascending (map (λ t. t.key) terms.now) }
    ensures split { filter (λ t. is_before t.key key.now) terms.now ++ result.now ≡ terms.now }
    ensures behind { result.now ≡ filter (λ t. not (is_before t.key key.now)) terms.now }
{
    let start = terms.partition_point(|t| t.key.cmp(key).is_lt());
    &terms[start..]
}

// The keys from the first on that does not stand before all that a span takes.
fn from_span<'a>(terms: &'a [Term], span: &Span) -> &'a [Term]
    requires { Ascending (map (λ t. t.key) terms.now) }
    ensures split { filter (λ t. begins_behind span.now t.key) terms.now ++ result.now ≡ terms.now }
    ensures behind { result.now ≡ filter (λ t. not (begins_behind span.now t.key)) terms.now }
{
    let start = terms.partition_point(|t| span.begins_behind(&t.key));
    &terms[start..]
}

// The keys behind those that a span takes, where none stands before all of these.
fn behind_span<'a>(terms: &'a [Term], span: &Span) -> &'a [Term]
    requires ascending { Ascending (map (λ t. t.key) terms.now) }
    requires from { list_all (λ t. not (begins_behind span.now t.key)) terms.now ≡ true }
    ensures split { filter (λ t. takes span.now t.key) terms.now ++ result.now ≡ terms.now }
    ensures behind { result.now ≡ filter (λ t. not (takes span.now t.key)) terms.now }
{
    let end = terms.partition_point(|t| span.takes(&t.key));
    &terms[end..]
}

// Where the places of the first key begin.
fn start_of(terms: &[Term], places: &[Place]) -> usize
    ensures { result ≡ start_of terms.now places.now }
{
    match terms {
        [first, ..] => first.start,
        [] => places.len(),
    }
}

// The places from one on to another.
fn part(places: &[Place], start: usize, end: usize) -> &[Place]
    requires order { start ≤ end }
    requires within { end ≤ length places.now }
    ensures { result.now ≡ take (end - start) (drop start places.now) }
{
    &places[start..end]
}

// The places of the first key.
pub(crate) fn first_places<'a>(terms: &[Term], places: &'a [Place]) -> &'a [Place]
    requires { IsLaid terms.now places.now }
    ensures { result.now ≡ first_places terms.now places.now }
{
    match terms {
        [first, second, ..] => &places[first.start..second.start],
        [first] => &places[first.start..],
        [] => &[],
    }
}
