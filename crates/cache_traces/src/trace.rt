ghost use Rattle.std.specs.Prelude.{◌≡◌, ◌+◌, ◌<◌, ◌≤◌, length, IfOk, OnOk, OnErr, IfSome, Some, IsSome, [], slice_get};
ghost use Rattle.std.specs.List.{IsDistinct};
ghost use Rattle.cache_traces.specs.declared.act.Act.{Act};
ghost use Rattle.cache_traces.specs.Named.{named, steps_of, AllNamed};
ghost use Rattle.cache_traces.specs.Traced.{AreSame, Grows, and_then};

use crate::record::{Done, Record};
use indexmap::IndexSet;
use std::alloc::{AllocError, Global};
use std::hash::Hash;
use std::marker::Model;

/// The calls of a cache, in their order. Contracts see the keys in the order of their first uses, the calls with their
/// keys, and how many more calls there is room for.
#[derive(Drop)]
pub struct Trace<K: Eq + Hash + Drop, N: Drop> {
    keys: IndexSet<K>,
    records: Vec<Record<N>>,
}

impl<K: Eq + Hash + Drop, N: Drop> Model for Trace<K, N> {
    ghost use Rattle.std.specs.Prelude.{◌-◌, ◌≤◌, ◌^◌, length, vec_len, vec_capacity};
    ghost use Rattle.cache_traces.specs.Named.{steps_of, AllNamed};
    ghost use Rattle.cache_traces.specs.Traced.{Traced};

    ghost Value = { Traced K N };

    ghost view = { λ t. record {
      keys = t.keys.keys;
      steps = steps_of t.keys.keys t.records.items;
      room = vec_capacity t.records - vec_len t.records;
    } };

    ghost invariant = { λ t. (length t.keys.keys ≤ 2 ^ 32) × AllNamed t.keys.keys t.records.items };
}

impl<K: Eq + Hash + Drop, N: Drop> Trace<K, N> {
    /// A trace without calls. It takes no memory yet.
    pub fn new(alloc: Global) -> Trace<K, N>
        ensures keys { result.keys ≡ [] }
        ensures steps { result.steps ≡ [] }
    {
        Trace {
            keys: IndexSet::new(alloc),
            records: Vec::new(alloc),
        }
    }

    /// The number of a key that was used already. It costs the key's hash, and a comparison where it is there.
    pub fn number_of(&self, key: &K) -> Option<u32>
        requires same { AreSame K K.eq }
        ensures { IfSome result (λ n. slice_get self.now.keys n ≡ Some key.now) }
    {
        let (at, _key) = self.keys.get_full(key)?;
        Some(at as u32)
    }

    /// The key of a number. It takes no memory.
    pub fn key(&self, number: u32) -> &K
        requires { number < length self.now.keys }
        ensures { slice_get self.now.keys number ≡ Some result.now }
    {
        match self.keys.get_index(number as usize) {
            Some(key) => key,
            None => unreachable!(),
        }
    }

    /// The number of a key, which is new where it was not used yet. It costs the key's hash, and a comparison where it is
    /// there.
    ///
    /// Where memory is wanting, or there are 2^32 keys, nothing changed.
    pub fn number(&mut self, key: K) -> Result<u32, AllocError>
        requires same { AreSame K K.eq }
        ensures number { IfOk result (λ n. slice_get self.new.keys n ≡ Some key) }
        ensures grows { Grows self.old.keys self.new.keys }
        ensures distinct { IsDistinct K.eq self.new.keys }
        ensures steps { self.new.steps ≡ self.old.steps }
        ensures room { self.new.room ≡ self.old.room }
    {
        if self.keys.len() > u32::MAX as usize {
            return Err(AllocError);
        }
        match self.keys.insert_full(key) {
            Ok((at, _new)) => Ok(at as u32),
            Err(_key) => Err(AllocError),
        }
    }

    /// The calls, in their order, with keys by their numbers. It costs nothing.
    pub fn records(&self) -> &[Record<N>]
        ensures steps { self.now.steps ≡ steps_of self.now.keys result.now }
        ensures named { AllNamed self.now.keys result.now }
    {
        &self.records
    }

    /// Takes the room for so many more calls. Where memory is wanting, nothing changed.
    pub fn reserve(&mut self, more: usize) -> Result<(), AllocError>
        ensures keys { self.new.keys ≡ self.old.keys }
        ensures steps { self.new.steps ≡ self.old.steps }
        ensures room { OnOk result (more ≤ self.new.room) }
        ensures no_memory { OnErr result (self.new.room ≡ self.old.room) }
    {
        self.records.reserve(more)
    }

    /// Puts a call behind the others. It takes no memory.
    pub fn push(&mut self, seat: u32, done: Done<N>)
        requires room { 1 ≤ self.old.room }
        requires named { IsSome (named self.old.keys done) }
        ensures keys { self.new.keys ≡ self.old.keys }
        ensures step { (act : Act K N) → named self.old.keys done ≡ Some act
            → self.new.steps ≡ and_then self.old.steps seat act }
        ensures room { self.new.room + 1 ≡ self.old.room }
    {
        self.records.push_reserved(Record { seat, done });
    }
}
