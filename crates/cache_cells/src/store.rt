ghost use Rattle.std.specs.Prelude.{◌≡◌, ◌+◌, ◌-◌, ◌<◌, ◌≤◌, ℕ, true, length, take, drop, IfOk, OnOk, OnErr, IsSome, None};
ghost use Rattle.std.specs.Map.Iter.{ShowsInOrder, deref_pair};
ghost use Rattle.cache_machine.specs.Machine.{nothing_kept, stored};
ghost use Rattle.cache_machine.specs.Laws.{weight_of};
ghost use Rattle.cache_cells.specs.Steps.{hit_of, used, after_put, pushed, with_light_rest, light_weight, without_last};

use crate::Value;
use lru::{Iter, LruCache};
use std::alloc::{AllocError, Global};
use std::hash::Hash;
use std::marker::Model;
use std::num::NonZeroUsize;

/// Entries in the order of their last use, at most so many, which weigh at most so much together where a greatest weight
/// is set. Contracts see what the machine keeps.
#[derive(Drop)]
pub struct Store<K: Eq + Hash + Drop, V: Value> {
    entries: LruCache<K, V>,
    greatest: Option<u64>,
    // What the entries weigh together, where a greatest weight is set.
    total: u64,
}

impl<K: Eq + Hash + Drop, V: Value> Model for Store<K, V> {
    ghost use Rattle.cache_machine.specs.Machine.{Kept, kept_code};
    ghost use Rattle.cache_cells.specs.Bounded.{IsBounded};
    ghost use Rattle.cache_cells.specs.Steps.{kept_of};

    ghost Value = { Kept K V };

    ghost coded = { kept_code K.code V.code };

    ghost view = { λ s. kept_of s.entries s.greatest };

    ghost invariant = { λ s. IsBounded V.weight s.greatest s.total s.entries };
}

impl<K: Eq + Hash + Drop, V: Value> Store<K, V> {
    /// A store of no entries.
    pub fn new(alloc: Global, size: u32, greatest: Option<u64>) -> Result<Store<K, V>, AllocError>
        requires { 0 < size }
        ensures { IfOk result (λ s. s ≡ nothing_kept size greatest) }
    {
        let entries = LruCache::sparse(alloc, NonZeroUsize::new(size as usize).unwrap())?;
        Ok(Store {
            entries,
            greatest,
            total: 0,
        })
    }

    /// How many entries there are. It takes no memory.
    pub fn len(&self) -> u32
        ensures { result ≡ length self.now.entries }
    {
        self.entries.len() as u32
    }

    /// Walks along the entries, the most recently used first, and uses none. It takes no memory.
    pub fn iter(&self) -> Iter<'_, K, V>
        ensures rest { result ≡ self.now.entries }
        ensures runs { ShowsInOrder (deref_pair {K = K} {X = V}) }
    {
        self.entries.iter()
    }

    /// The value of the key, where it serves a look-up that needs so much. Its entry is then the most recently used.
    ///
    /// Where memory is wanting for the value, nothing changed.
    pub fn get(&mut self, key: &K, need: u64) -> Result<Option<V>, AllocError>
        ensures value { IfOk result (λ v. v ≡ hit_of K.eq (V.serves need) key.now self.old) }
        ensures hit { IfOk result (λ v. IsSome v → self.new ≡ used K.eq key.now self.old) }
        ensures missed { IfOk result (λ v. v ≡ None → self.new ≡ self.old) }
        ensures cause { OnErr result (IsSome (hit_of K.eq (V.serves need) key.now self.old)) }
        ensures no_memory { OnErr result (self.new ≡ self.old) }
    {
        let value = match self.entries.peek(key) {
            Some(value) if value.serves(need) => value.share()?,
            _ => return Ok(None),
        };
        self.entries.promote(key);
        Ok(Some(value))
    }

    /// Puts the pair first, in place of one with its key, and drops the least recently used that have no room beside it.
    /// A pair heavier than the greatest weight is dropped itself.
    ///
    /// Where memory is wanting, nothing changed.
    pub fn store(&mut self, key: K, value: V) -> Result<(), AllocError>
        requires same { (x y : K) → K.eq x y ≡ true → x ≡ y }
        ensures stored { OnOk result (self.new ≡ stored K.eq V.weight key value self.old) }
        ensures no_memory { OnErr result (self.new ≡ self.old) }
    {
        match self.greatest {
            Some(greatest) => {
                if let Some(weight) = value.weight_within(greatest) {
                    let entries = &mut self.entries;
                    self.total = push_within(entries, key, value, weight, self.total, greatest)?;
                }
                Ok(())
            }
            None => put_first(&mut self.entries, key, value),
        }
    }
}

// Puts the pair first, in place of one with its key. Where memory is wanting, nothing changed.
fn put_first<K: Eq + Hash + Drop, V: Value>(
    entries: &mut LruCache<K, V>,
    key: K,
    value: V,
) -> Result<(), AllocError>
    requires same { (x y : K) → K.eq x y ≡ true → x ≡ y }
    requires few { length entries.old.entries ≤ entries.old.cap }
    requires some { 0 < entries.old.cap }
    ensures first { OnOk result (entries.new ≡ after_put K.eq key value entries.old) }
    ensures no_memory { OnErr result (entries.new ≡ entries.old) }
{
    match entries.put(key, value) {
        Ok(_old) => Ok(()),
        Err(_pair) => Err(AllocError),
    }
}

// Puts the pair first, in place of one with its key, and drops the least recently used until all weigh at most
// `most` again. Tells what they weigh. Where memory is wanting, nothing changed.
fn push_within<K: Eq + Hash + Drop, V: Value>(
    entries: &mut LruCache<K, V>,
    key: K,
    value: V,
    weight: u64,
    total: u64,
    most: u64,
) -> Result<u64, AllocError>
    requires same { (x y : K) → K.eq x y ≡ true → x ≡ y }
    requires few { length entries.old.entries ≤ entries.old.cap }
    requires some { 0 < entries.old.cap }
    requires weighs { total ≡ weight_of V.weight entries.old.entries }
    requires fits { total ≤ most }
    requires weight { weight ≡ V.weight value }
    requires light { weight ≤ most }
    ensures first { OnOk result (entries.new ≡ pushed K.eq V.weight most key value entries.old) }
    ensures weight { IfOk result (λ n. n ≡ weight_of V.weight entries.new.entries) }
    ensures no_memory { OnErr result (entries.new ≡ entries.old) }
{
    let rest = push_first(entries, key, value, total)?;
    Ok(lighten(entries, rest, most - weight) + weight)
}

// Puts the pair first, in place of one with its key, and tells what the others weigh that have room beside it, of all
// that weighed `total`. Where memory is wanting, nothing changed.
fn push_first<K: Eq + Hash + Drop, V: Value>(
    entries: &mut LruCache<K, V>,
    key: K,
    value: V,
    total: u64,
) -> Result<u64, AllocError>
    requires same { (x y : K) → K.eq x y ≡ true → x ≡ y }
    requires few { length entries.old.entries ≤ entries.old.cap }
    requires some { 0 < entries.old.cap }
    requires weighs { total ≡ weight_of V.weight entries.old.entries }
    ensures first { OnOk result (entries.new ≡ after_put K.eq key value entries.old) }
    ensures rest { IfOk result (λ n. n ≡ weight_of V.weight (drop 1 entries.new.entries)) }
    ensures no_memory { OnErr result (entries.new ≡ entries.old) }
{
    match entries.push(key, value) {
        Ok(Some((_key, dropped))) => Ok(without(&dropped, total)),
        Ok(None) => Ok(total),
        Err(_pair) => Err(AllocError),
    }
}

// What is left of a weight without that of a value which was counted in it.
fn without<V: Value>(value: &V, total: u64) -> u64
    requires { V.weight value.now ≤ total }
    ensures { result + V.weight value.now ≡ total }
{
    match value.weight_within(total) {
        Some(weight) => total - weight,
        None => unreachable!(),
    }
}

// Drops the least recently used entries until those behind the first weigh at most so much, and tells what they weigh.
fn lighten<K: Eq + Hash + Drop, V: Value>(
    entries: &mut LruCache<K, V>,
    mut rest: u64,
    most: u64,
) -> u64
    requires some { 0 < length entries.old.entries }
    requires weighs { rest ≡ weight_of V.weight (drop 1 entries.old.entries) }
    ensures dropped { entries.new ≡ with_light_rest V.weight most entries.old }
    ensures rest { result ≡ light_weight V.weight most (drop 1 entries.old.entries) }
{
    while rest > most {
        rest = drop_last(entries, rest);
    }
    rest
}

// Drops the least recently used entry, which is not the only one, and tells what those behind the first weigh then.
fn drop_last<K: Eq + Hash + Drop, V: Value>(entries: &mut LruCache<K, V>, rest: u64) -> u64
    requires others { 1 < length entries.old.entries }
    requires weighs { rest ≡ weight_of V.weight (drop 1 entries.old.entries) }
    ensures front { entries.new ≡ without_last entries.old }
    ensures weighed { result ≡ weight_of V.weight (drop 1 entries.new.entries) }
{
    match entries.pop_lru() {
        Some((_key, dropped)) => without(&dropped, rest),
        None => rest,
    }
}
