//! The steps of a walk along two rows of terms at once.
ghost use Rattle.std.specs.Prelude.{◌≡◌, [], OnOk, MatchOption};
ghost use Rattle.segment_postings.specs.Layout.{IsLaid, IsLeast, own_of, behind_of, put_term};

use crate::laid::{Term, begins_with, first_places};
use crate::occurrence::Place;
use field_schema::{Key, NoMemory};
use std::alloc::Global;

/// The least of the keys that two ascending rows of terms begin with, none where both are empty.
pub(crate) fn least<'a>(left: &'a [Term], right: &'a [Term]) -> Option<&'a Key>
    ensures { MatchOption result ((left.now ≡ []) × (right.now ≡ [])) (λ k. IsLeast k.now left.now right.now) }
{
    match left {
        [one, ..] => match right {
            [other, ..] => {
                if other.key.cmp(&one.key).is_lt() {
                    Some(&other.key)
                } else {
                    Some(&one.key)
                }
            }
            [] => Some(&one.key),
        },
        [] => match right {
            [other, ..] => Some(&other.key),
            [] => None,
        },
    }
}

/// The places of a key, where the terms begin with it.
pub(crate) fn own<'a>(terms: &[Term], places: &'a [Place], key: &Key) -> &'a [Place]
    requires { IsLaid terms.now places.now }
    ensures { result.now ≡ own_of key.now terms.now places.now }
{
    if !begins_with(terms, key) {
        return &[];
    }
    first_places(terms, places)
}

/// The terms behind a key, where they begin with it, and all where they don't.
pub(crate) fn behind<'a>(terms: &'a [Term], key: &Key) -> &'a [Term]
    ensures { result.now ≡ behind_of key.now terms.now }
{
    match terms {
        [first, rest @ ..] => { if *key == first.key { rest } else { terms } }
        [] => terms,
    }
}

/// Adds a key behind the others, where places from `start` on were added for it.
pub(crate) fn put_term(
    alloc: Global,
    terms: &mut Vec<Term>,
    key: &Key,
    start: usize,
    end: usize,
) -> Result<(), NoMemory>
    ensures { OnOk result (terms.new.items ≡ put_term terms.old.items key.now start end) }
{
    if start < end {
        let key = key.copy(alloc)?;
        terms.push(Term { key, start })?;
    }
    Ok(())
}
