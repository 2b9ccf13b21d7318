ghost use Rattle.std.specs.Prelude.{◌≡◌, ◌<◌, ◌≤◌, ◌+◌, Bool, true, IfOk, OnOk, OnErr, IsSome, IfSome, None, Some, [], length, slice_get};
ghost use Rattle.std.specs.Result.{is_ok};
ghost use Rattle.cache_machine.specs.Machine.{empty_cache, owned_by, look_answer, after_look, finished as after_finish, released, recent_keys};
ghost use Rattle.cache_traces.specs.declared.act.Act.TheVariants.{Finished, GaveUp, Listed};
ghost use Rattle.cache_traces.specs.Looking.{answer_of, told_of, keyless, is_joined, with_look};
ghost use Rattle.cache_traces.specs.Named.{all_named};
ghost use Rattle.cache_traces.specs.Traced.{AreSame, and_then};
ghost use Rattle.cache_traces.specs.TracedCache.{IsTraced, OfKey};
ghost use Rattle.cache_traces.specs.Traces.{rules, told};

use crate::counted::Counted;
use crate::record::Done;
use crate::told::Told;
use crate::trace::Trace;
use cache_cells::Cells;
use cache_machine::Look;
use std::alloc::{AllocError, Global};
use std::hash::Hash;
use std::marker::Model;

/// What a look-up is answered.
#[derive(Drop)]
pub enum Looked<V: Drop> {
    /// The value of the key, which is now the most recently used.
    Hit(V),
    /// The seat of this number is computing the key.
    Join(u32),
    /// Nobody is. The caller's seat owns the key from now on, and computes it.
    Own,
}

/// A cache with the calls that were made of it. Contracts see the keys by their numbers, the machine's state, and the calls.
///
/// A key is given once and has a number from then on. A look-up by the number costs a step, and a comparison with each
/// key that seats own.
#[derive(Drop)]
pub struct TracedCells<K: Eq + Hash + Drop, V: Counted> {
    cells: Cells<u32, V>,
    trace: Trace<K, V::Numbers>,
}

impl<K: Eq + Hash + Drop, V: Counted> Model for TracedCells<K, V> {
    ghost use Rattle.cache_traces.specs.NamedCache.{named_cache};
    ghost use Rattle.cache_traces.specs.TracedCache.{TracedCache, Holds};
    ghost use Rattle.cache_traces.specs.Traces.{rules};

    ghost Value = { TracedCache K V V.Numbers };

    ghost view = { λ t. record {
      keys = t.trace.keys;
      cache = named_cache t.trace.keys t.cells;
      steps = t.trace.steps;
    } };

    ghost invariant = { λ t. Holds (rules K.eq V.weight V.serves V.numbers V.keeps)
        t.trace.keys t.trace.steps t.trace.room t.cells };
}

impl<K: Eq + Hash + Drop, V: Counted> TracedCells<K, V> {
    /// An empty cache, in which nobody owns a key.
    pub fn new(
        alloc: Global,
        size: u32,
        greatest: Option<u64>,
        seats: u32,
    ) -> Result<TracedCells<K, V>, AllocError>
        requires { 0 < size }
        ensures keys { IfOk result (λ t. t.keys ≡ []) }
        ensures cache { IfOk result (λ t. t.cache ≡ empty_cache size greatest seats) }
        ensures steps { IfOk result (λ t. t.steps ≡ []) }
    {
        let cells = Cells::new(alloc, size, greatest, seats)?;
        let trace = Trace::new(alloc);
        Ok(TracedCells { cells, trace })
    }

    /// How many seats there are. It takes no memory.
    pub fn seats(&self) -> u32
        ensures seats { result ≡ length self.now.cache.pending }
        ensures traced { IsTraced (rules K.eq V.weight V.serves V.numbers V.keeps) self.now }
    {
        self.cells.seats()
    }

    /// The number of a key that was given already. It costs the key's hash, and a comparison where it is there.
    pub fn number_of(&self, key: &K) -> Option<u32>
        requires same { AreSame K K.eq }
        ensures { IfSome result (λ n. slice_get self.now.keys n ≡ Some key.now) }
    {
        self.trace.number_of(key)
    }

    /// Gives a key, which then has a number. It costs the key's hash, and a comparison where it is there.
    pub fn number(&mut self, key: K) -> Result<u32, AllocError>
        requires same { AreSame K K.eq }
        ensures number { IfOk result (λ n. slice_get self.new.keys n ≡ Some key) }
        ensures cache { self.new.cache ≡ self.old.cache }
        ensures steps { self.new.steps ≡ self.old.steps }
    {
        self.trace.number(key)
    }

    /// Looks the key of a number up for a seat that owns none. A look-up that is asked again after Join, and answered Join
    /// again, is not kept among the calls.
    ///
    /// Where memory is wanting, for the value of a hit or for the call, nothing changed.
    pub fn look(
        &mut self,
        key: u32,
        need: u64,
        again: bool,
        seat: u32,
    ) -> Result<Looked<V>, AllocError>
        requires named { key < length self.old.keys }
        requires seat { seat < length self.old.cache.pending }
        requires idle { owned_by self.old.cache seat ≡ None }
        ensures keys { self.new.keys ≡ self.old.keys }
        ensures answer { IfOk result (λ a. OfKey self.old.keys key (λ k.
            answer_of k a ≡ look_answer K.eq (V.serves need) k self.old.cache)) }
        ensures after { OnOk result (OfKey self.old.keys key (λ k.
            self.new.cache ≡ after_look K.eq (V.serves need) k seat self.old.cache)) }
        ensures steps { IfOk result (λ a. OfKey self.old.keys key (λ k.
            self.new.steps ≡ with_look self.old.steps seat k need again (told_of a))) }
        ensures no_memory { OnErr result (self.new ≡ self.old) }
    {
        // For this call, and for the end of each key that seats own then.
        self.trace.reserve(self.cells.seats() as usize + 1)?;
        let look = self.cells.look(key, need, seat)?;
        note(&mut self.trace, seat, key, need, again, told(&look));
        Ok(without_key(look))
    }

    /// Ends the key of a seat that owns one, and stores its value first, unless it may not be kept or is heavier than the
    /// greatest weight.
    ///
    /// Where memory is wanting, the key is no longer owned, and what is kept is as before.
    pub fn finish(&mut self, seat: u32, value: V, most: u32) -> Result<(), AllocError>
        requires same { AreSame K K.eq }
        requires owns { IsSome (owned_by self.old.cache seat) }
        ensures keys { self.new.keys ≡ self.old.keys }
        ensures after { OnOk result (self.new.cache ≡ after_finish K.eq V.weight seat value
            (V.keeps (V.numbers most value)) self.old.cache) }
        ensures no_memory { OnErr result (self.new.cache ≡ released seat self.old.cache) }
        ensures steps { (k : K) → owned_by self.old.cache seat ≡ Some k
            → self.new.steps ≡ and_then self.old.steps seat
            (Finished k (V.numbers most value) (is_ok result)) }
    {
        let key = owned(&self.cells, seat);
        let numbers = value.numbers(most);
        let keep = V::keeps(&numbers);
        let result = self.cells.finish(seat, value, keep);
        let stored = result.is_ok();
        let done = Done::Finished {
            key,
            numbers,
            stored,
        };
        self.trace.push(seat, done);
        result
    }

    /// Ends the key of a seat that owns one, of which nothing is stored. It takes no memory.
    pub fn give_up(&mut self, seat: u32)
        requires owns { IsSome (owned_by self.old.cache seat) }
        ensures keys { self.new.keys ≡ self.old.keys }
        ensures after { self.new.cache ≡ released seat self.old.cache }
        ensures steps { (k : K) → owned_by self.old.cache seat ≡ Some k
            → self.new.steps ≡ and_then self.old.steps seat (GaveUp k) }
    {
        let key = self.cells.release(seat);
        self.trace.push(seat, Done::GaveUp { key });
    }

    /// The key of a number. It takes no memory.
    pub fn key(&self, number: u32) -> &K
        requires { number < length self.now.keys }
        ensures { slice_get self.now.keys number ≡ Some result.now }
    {
        self.trace.key(number)
    }

    /// The numbers of the most recently used keys, at most so many, the most recent first. It costs a step for each.
    ///
    /// Where memory is wanting, nothing changed.
    pub fn recent(&mut self, alloc: Global, most: u32, seat: u32) -> Result<Vec<u32>, AllocError>
        requires seat { seat < length self.old.cache.pending }
        ensures keys { self.new.keys ≡ self.old.keys }
        ensures cache { self.new.cache ≡ self.old.cache }
        ensures answer { IfOk result (λ ns.
            all_named self.old.keys ns.items ≡ Some (recent_keys most self.old.cache.kept)) }
        ensures steps { OnOk result (self.new.steps
            ≡ and_then self.old.steps seat (Listed most (recent_keys most self.old.cache.kept))) }
        ensures no_memory { OnErr result (self.new ≡ self.old) }
    {
        let numbers = newest(alloc, &self.cells, most)?;
        let keys = newest(alloc, &self.cells, most)?;
        // For this call, and for the end of each key that seats own.
        self.trace.reserve(self.cells.seats() as usize + 1)?;
        self.trace.push(seat, Done::Listed { most, keys });
        Ok(numbers)
    }

    /// The numbers of the most recently used keys, at most so many, the most recent first, without a call that is told. It
    /// costs a step for each.
    pub fn newest(&self, alloc: Global, most: u32) -> Result<Vec<u32>, AllocError>
        ensures { IfOk result (λ ns.
            all_named self.now.keys ns.items ≡ Some (recent_keys most self.now.cache.kept)) }
    {
        newest(alloc, &self.cells, most)
    }

    /// Gives the cache up for its calls, and drops what it kept.
    pub fn into_trace(self) -> Trace<K, V::Numbers>
        ensures keys { result.keys ≡ self.keys }
        ensures steps { result.steps ≡ self.steps }
    {
        self.trace
    }

    /// How many values are kept. It takes no memory.
    pub fn len(&self) -> u32
        ensures { result ≡ length self.now.cache.kept.entries }
    {
        self.cells.len()
    }
}

// What is told of an answer.
fn told<V: Drop>(look: &Look<u32, V>) -> Told
    ensures { result ≡ told look.now }
{
    match look {
        Look::Hit(_) => Told::Hit,
        Look::Join(_, owner) => Told::Joined(*owner),
        Look::Own => Told::Owned,
    }
}

// The answer without the number.
fn without_key<V: Drop>(look: Look<u32, V>) -> Looked<V>
    ensures { result ≡ keyless look }
{
    match look {
        Look::Hit(value) => Looked::Hit(value),
        Look::Join(_, owner) => Looked::Join(owner),
        Look::Own => Looked::Own,
    }
}

// Puts a look-up behind the other calls, if it is kept.
fn note<K: Eq + Hash + Drop, N: Drop>(
    trace: &mut Trace<K, N>,
    seat: u32,
    key: u32,
    need: u64,
    again: bool,
    told: Told,
)
    requires room { 1 ≤ trace.old.room }
    requires named { key < length trace.old.keys }
    ensures keys { trace.new.keys ≡ trace.old.keys }
    ensures room { trace.old.room ≤ trace.new.room + 1 }
    ensures steps { OfKey trace.old.keys key (λ k.
        trace.new.steps ≡ with_look trace.old.steps seat k need again told) }
{
    if again && is_joined(&told) {
        return;
    }
    let done = Done::Looked {
        key,
        need,
        again,
        told,
    };
    trace.push(seat, done);
}

fn is_joined(told: &Told) -> bool
    ensures { result ≡ is_joined told.now }
{
    matches!(told, Told::Joined(_))
}

// The number of the key that a seat owns.
fn owned<V: Counted>(cells: &Cells<u32, V>, seat: u32) -> u32
    requires { IsSome (owned_by cells.now seat) }
    ensures { owned_by cells.now seat ≡ Some result }
{
    match cells.owned(seat) {
        Some(key) => *key,
        None => unreachable!(),
    }
}

// The numbers of the most recently used entries, at most so many.
fn newest<V: Counted>(
    alloc: Global,
    cells: &Cells<u32, V>,
    most: u32,
) -> Result<Vec<u32>, AllocError>
    ensures { IfOk result (λ ns. ns.items ≡ recent_keys most cells.now.kept) }
{
    let mut numbers = Vec::new(alloc);
    for (number, _value) in cells.iter() {
        if numbers.len() == most as usize {
            break;
        }
        numbers.push(*number)?;
    }
    Ok(numbers)
}
