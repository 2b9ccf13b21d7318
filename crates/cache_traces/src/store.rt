ghost use Rattle.std.specs.Prelude.{◌≡◌, ◌<◌, IfOk, OnOk, OnErr, is_some, [], length, nat_eq};
ghost use Rattle.cache_machine.specs.Machine.{nothing_kept, served, stored};
ghost use Rattle.cache_traces.specs.StoreTraces.{after_found};
ghost use Rattle.cache_traces.specs.TracedStore.{IsTracedStore, one_more};
ghost use Rattle.cache_traces.specs.Traces.{rules};
ghost use Rattle.cache_traces.specs.declared.store_act.StoreAct.TheVariants.{Looked, Put};

use crate::counted::Counted;
use crate::store_act::{StoreAct, StoreStep};
use cache_cells::Store;
use std::alloc::{AllocError, Global};
use std::marker::Model;

/// Values under numbers, of which nobody owns one, with the calls that were made of them. Contracts see what the machine
/// keeps, and the calls.
#[derive(Drop)]
pub struct TracedStore<V: Counted> {
    store: Store<u32, V>,
    records: Vec<StoreStep<V::Numbers>>,
}

impl<V: Counted> Model for TracedStore<V> {
    ghost use Rattle.std.specs.Prelude.{nat_eq};
    ghost use Rattle.cache_traces.specs.TracedStore.{TracedKept, IsTracedStore, traced_kept};
    ghost use Rattle.cache_traces.specs.Traces.{rules};

    ghost Value = { TracedKept V V.Numbers };

    ghost view = { λ t. traced_kept t.store t.records.items };

    ghost invariant = { λ t. IsTracedStore (rules nat_eq V.weight V.serves V.numbers V.keeps)
        (traced_kept t.store t.records.items) };
}

impl<V: Counted> TracedStore<V> {
    /// A store of no values.
    pub fn new(
        alloc: Global,
        size: u32,
        greatest: Option<u64>,
    ) -> Result<TracedStore<V>, AllocError>
        requires { 0 < size }
        ensures kept { IfOk result (λ t. t.kept ≡ nothing_kept size greatest) }
        ensures steps { IfOk result (λ t. t.steps ≡ []) }
    {
        let store = Store::new(alloc, size, greatest)?;
        let records = Vec::new(alloc);
        Ok(TracedStore { store, records })
    }

    /// The value of a number, where an entry has it and serves. The entry is then the most recently used.
    ///
    /// Where memory is wanting, for the value or for the call, nothing changed.
    pub fn look(&mut self, number: u32, seat: u32) -> Result<Option<V>, AllocError>
        ensures answer { IfOk result (λ v. v
            ≡ served nat_eq (V.serves 0) number self.old.kept.entries) }
        ensures after { IfOk result (λ v. self.new.kept
            ≡ after_found nat_eq number (is_some v) self.old.kept) }
        ensures steps { IfOk result (λ v. self.new.steps
            ≡ one_more self.old.steps seat (Looked number (is_some v))) }
        ensures no_memory { OnErr result (self.new ≡ self.old) }
    {
        // For this call.
        self.records.reserve(1)?;
        let value = self.store.get(&number, 0)?;
        let hit = value.is_some();
        let act = StoreAct::Looked { number, hit };
        self.records.push_reserved(StoreStep { seat, act });
        Ok(value)
    }

    /// Puts a value first, in place of one of its number, and drops the least recently used that have no room beside it.
    /// A value heavier than the greatest weight is dropped itself. The call is kept with the value's numbers where none
    /// is listed.
    ///
    /// Where memory is wanting, for the value or for the call, nothing changed.
    pub fn put(&mut self, number: u32, value: V, seat: u32) -> Result<(), AllocError>
        ensures after { OnOk result (self.new.kept
            ≡ stored nat_eq V.weight number value self.old.kept) }
        ensures steps { OnOk result (self.new.steps
            ≡ one_more self.old.steps seat (Put number (V.numbers 0 value))) }
        ensures no_memory { OnErr result (self.new ≡ self.old) }
    {
        // For this call.
        self.records.reserve(1)?;
        let numbers = value.numbers(0);
        self.store.store(number, value)?;
        let act = StoreAct::Put { number, numbers };
        self.records.push_reserved(StoreStep { seat, act });
        Ok(())
    }

    /// Gives the store up for its calls, and drops what it kept.
    pub fn into_steps(self) -> Vec<StoreStep<V::Numbers>>
        ensures { result.items ≡ self.steps }
    {
        self.records
    }

    /// How many values are kept. It takes no memory.
    pub fn len(&self) -> u32
        ensures len { result ≡ length self.now.kept.entries }
        ensures traced { IsTracedStore (rules nat_eq V.weight V.serves V.numbers V.keeps) self.now }
    {
        self.store.len()
    }
}
