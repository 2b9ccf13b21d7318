ghost use Rattle.std.specs.Prelude.{◌≡◌, ◌<◌, ◌^◌, ℕ, true, length, IfOk, OnOk, OnErr, IsSome, IfSome, None, Some, option_copied};
ghost use Rattle.std.specs.Map.Iter.{ShowsInOrder, deref_pair};
ghost use Rattle.cache_machine.specs.Machine.{empty_cache, owned_by, owner_of, look_answer, after_look, released, finished};
ghost use Rattle.cache_machine.specs.Runs.{IsHit};

use crate::{Store, Value};
use cache_machine::Look;
use lru::Iter;
use std::alloc::{AllocError, Global};
use std::hash::Hash;
use std::marker::Model;

/// A cache whose callers share the keys that they compute. Contracts see the machine's state.
///
/// A look-up costs the hash of its key, once more where it hits, and a comparison with each key that seats own, of which
/// there are few; the other calls cost a step, and one for each entry that they drop.
#[derive(Drop)]
pub struct Cells<K: Eq + Hash + Drop, V: Value> {
    store: Store<K, V>,
    // By seat the key that it owns.
    pending: Vec<Option<K>>,
}

impl<K: Eq + Hash + Drop, V: Value> Model for Cells<K, V> {
    ghost use Rattle.std.specs.Prelude.{◌<◌, ◌^◌, length};
    ghost use Rattle.cache_machine.specs.Machine.{Cache, cache_code};

    ghost Value = { Cache K V };

    ghost coded = { cache_code K.code V.code };

    ghost view = { λ c. record { kept = c.store; pending = c.pending.items } };

    ghost invariant = { λ c. length c.pending.items < 2 ^ 32 };
}

impl<K: Eq + Hash + Drop, V: Value> Cells<K, V> {
    /// An empty cache, in which nobody owns a key.
    pub fn new(
        alloc: Global,
        size: u32,
        greatest: Option<u64>,
        seats: u32,
    ) -> Result<Cells<K, V>, AllocError>
        requires { 0 < size }
        ensures { IfOk result (λ c. c ≡ empty_cache size greatest seats) }
    {
        let store = Store::new(alloc, size, greatest)?;
        let mut pending = Vec::with_capacity(alloc, seats as usize)?;
        for _seat in 0..seats {
            pending.push(None)?;
        }
        Ok(Cells { store, pending })
    }

    /// How many seats there are. It takes no memory.
    pub fn seats(&self) -> u32
        ensures { result ≡ length self.now.pending }
    {
        self.pending.len() as u32
    }

    /// The key that the seat owns, if any. It takes no memory.
    pub fn owned(&self, seat: u32) -> Option<&K>
        ensures { option_copied result ≡ owned_by self.now seat }
    {
        self.pending.get(seat as usize)?.as_ref()
    }

    /// Looks a key up for a seat that owns none.
    ///
    /// Where memory is wanting for the value of a hit, nothing changed.
    pub fn look(&mut self, key: K, need: u64, seat: u32) -> Result<Look<K, V>, AllocError>
        requires seat { seat < length self.old.pending }
        requires idle { owned_by self.old seat ≡ None }
        ensures answer { IfOk result (λ a. a ≡ look_answer K.eq (V.serves need) key self.old) }
        ensures after { OnOk result (self.new ≡ after_look K.eq (V.serves need) key seat self.old) }
        ensures cause { OnErr result (IsHit (look_answer K.eq (V.serves need) key self.old)) }
        ensures no_memory { OnErr result (self.new ≡ self.old) }
    {
        if let Some(value) = self.store.get(&key, need)? {
            return Ok(Look::Hit(value));
        }
        if let Some(owner) = owner_among(&self.pending, &key) {
            return Ok(Look::Join(key, owner as u32));
        }
        self.pending[seat as usize] = Some(key);
        Ok(Look::Own)
    }

    /// Ends the pending key of a seat that owns one, and hands it out. It takes no memory.
    pub fn release(&mut self, seat: u32) -> K
        requires { IsSome (owned_by self.old seat) }
        ensures key { owned_by self.old seat ≡ Some result }
        ensures after { self.new ≡ released seat self.old }
    {
        match self.pending[seat as usize].take() {
            Some(key) => key,
            None => unreachable!(),
        }
    }

    /// Ends the pending key of a seat that owns one, and stores its value if that may be kept.
    ///
    /// Where memory is wanting, the key is no longer pending, and the entries are as before.
    pub fn finish(&mut self, seat: u32, value: V, keep: bool) -> Result<(), AllocError>
        requires same { (x y : K) → K.eq x y ≡ true → x ≡ y }
        requires owns { IsSome (owned_by self.old seat) }
        ensures after { OnOk result (self.new ≡ finished K.eq V.weight seat value keep self.old) }
        ensures no_memory { OnErr result (self.new ≡ released seat self.old) }
    {
        let key = self.release(seat);
        if keep {
            self.store.store(key, value)?;
        }
        Ok(())
    }

    /// How many entries there are. It takes no memory.
    pub fn len(&self) -> u32
        ensures { result ≡ length self.now.kept.entries }
    {
        self.store.len()
    }

    /// Walks along the entries, the most recently used first, and uses none. It takes no memory.
    pub fn iter(&self) -> Iter<'_, K, V>
        ensures rest { result ≡ self.now.kept.entries }
        ensures runs { ShowsInOrder (deref_pair {K = K} {X = V}) }
    {
        self.store.iter()
    }
}

// The first seat that owns the key.
fn owner_among<K: Eq + Hash + Drop>(pending: &[Option<K>], key: &K) -> Option<usize>
    ensures first { result ≡ owner_of K.eq key.now pending.now }
    ensures within { IfSome result (λ owner. owner < length pending.now) }
{
    for (seat, owned) in pending.iter().enumerate() {
        if let Some(other) = owned {
            if key == other {
                return Some(seat);
            }
        }
    }
    None
}
