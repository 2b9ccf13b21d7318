//! Ascending terms.
ghost use Rattle.std.specs.Prelude.{◌≡◌, ◌≤◌, ◌<◌, IfOk, OnOk, false, map, filter, fold, take, drop, length, not};
ghost use Rattle.std.specs.List.Sorted.{IsSortedByKey};
ghost use Rattle.field_schema.specs.Keys.{key_cmp};
ghost use Rattle.segment_postings.specs.Terms.{Ascending, is_before, put_key, begins_with, PastAll};

use crate::laid::Term;
use field_schema::{Key, NoMemory};
use std::alloc::Global;

/// Puts sorted terms among ascending keys, and keeps the first `most` of all.
///
/// It costs the terms that come among the first, and for each new one a move of those behind it.
pub(crate) fn join(
    alloc: Global,
    found: &mut Vec<Key>,
    terms: &[Term],
    most: usize,
) -> Result<(), NoMemory>
    requires ascending { Ascending found.old.items }
    requires few { length found.old.items ≤ most }
    requires sorted { IsSortedByKey (λ t. t.key) key_cmp terms.now }
    ensures found { OnOk result (found.new.items ≡ take most (fold put_key found.old.items (map (λ t. t.key) terms.now))) }
    ensures ascending { OnOk result (Ascending found.new.items) }
    ensures few { OnOk result (length found.new.items ≤ most) }
{
    for term in terms {
        if !put(alloc, found, &term.key, most)? {
            return Ok(());
        }
    }
    Ok(())
}

// Puts a key among ascending ones, and keeps the first `most`; false where it stands past all of these.
fn put(alloc: Global, found: &mut Vec<Key>, key: &Key, most: usize) -> Result<bool, NoMemory>
    requires ascending { Ascending found.old.items }
    requires few { length found.old.items ≤ most }
    ensures found { OnOk result (found.new.items ≡ take most (put_key found.old.items key.now)) }
    ensures past { IfOk result (λ more. more ≡ false → PastAll found.old.items key.now most) }
    ensures few { OnOk result (length found.new.items ≤ most) }
{
    let at = position(found, key);
    if at >= most {
        return Ok(false);
    }
    if begins_with(&found[at..], key) {
        return Ok(true);
    }
    found.insert(at, key.copy(alloc)?)?;
    found.truncate(most);
    Ok(true)
}

// How many of the ascending keys stand before a key.
fn position(found: &[Key], key: &Key) -> usize
    requires { Ascending found.now }
    ensures within { result ≤ length found.now }
    ensures before { take result found.now ≡ filter (λ x. is_before x key.now) found.now }
    ensures behind { drop result found.now ≡ filter (λ x. not (is_before x key.now)) found.now }
{
    found.partition_point(|x| x.cmp(key).is_lt())
}

// Whether keys begin with a key.
fn begins_with(found: &[Key], key: &Key) -> bool
    ensures { result ≡ begins_with key.now found.now }
{
    match found {
        [first, ..] => key == first,
        [] => false,
    }
}
