ghost use Rattle.std.specs.Prelude.{◌≡◌, ◌≤◌, ◌<◌, true, length, IfOk, OnOk, OnErr, IsSome, None, option_copied};
ghost use Rattle.std.specs.Option.{ForSome};
ghost use Rattle.std.specs.Arc.{arc_value};
ghost use Rattle.cache_machine.specs.Machine.{empty_cache, owned_by, released, recent_keys};
ghost use Rattle.cache_machine.specs.Runs.{IsHit};
ghost use Rattle.filter_cache.specs.Filters.{filter_answer, after_filter_look, filter_finished};
ghost use Rattle.filter_cache.specs.Looks.{look_of};

use crate::filter::Filter;
use cache_cells::Cells;
use cache_machine::Look;
use doc_sets::DocSet;
use field_schema::NoMemory;
use query_tree::{Queries, Query};
use sqlite_items::Items;
use std::alloc::Global;
use std::marker::Model;
use std::sync::Arc;

/// What a look-up of a filter is answered.
#[derive(Drop)]
pub enum FilterLook {
    /// The set of the filter, which is now the most recently used.
    Hit(Arc<DocSet>),
    /// Another caller is computing it: the filter, and that caller's seat.
    Join(Query, u32),
    /// Nobody is. The caller's seat owns the filter from now on, and computes it.
    Own,
}

/// The filter cache. Contracts see the machine's state: filters with their sets, the most recently used first, and by
/// seat the filter that its caller is computing.
///
/// A look-up costs the hash of the filter, once more where it hits, and a comparison with each filter that seats own; the
/// other calls but `recent` cost a step, and one for each entry that they drop.
#[derive(Drop)]
pub struct FilterCells {
    cells: Cells<Query, Filter>,
    alloc: Global,
}

impl Model for FilterCells {
    ghost use Rattle.std.specs.Ordering.{nat_cmp};
    ghost use Rattle.std.specs.FinSet as sets;
    ghost use Rattle.std.specs.Coded.{coded_ℕ};
    ghost use Rattle.query_tree.specs.declared.query.Query.{Query};
    ghost use Rattle.query_tree.specs.contracts.query.Query as query;
    ghost use Rattle.cache_machine.specs.Machine.{Cache, cache_code};

    ghost Value = { Cache Query (sets.FinSet nat_cmp) };

    ghost coded = { cache_code query.the_row.coded (sets.code coded_ℕ) };

    ghost view = { λ c. c.cells };
}

impl FilterCells {
    /// A cache of at most `size` filters, which weigh at most `weight` together where it is there, for so many seats. It
    /// keeps nothing yet, and takes memory for its seats.
    ///
    /// A filter weighs 1, and 1 for each document of its set.
    pub fn new(
        alloc: Global,
        size: u32,
        weight: Option<u64>,
        seats: u32,
    ) -> Result<FilterCells, NoMemory>
        requires size { (0 < size) × (size ≤ 4096) }
        requires weight { ForSome weight (λ most. 0 < most) }
        requires seats { 0 < seats }
        ensures { IfOk result (λ c. c ≡ empty_cache size weight seats) }
    {
        let cells = Cells::new(alloc, size, weight, seats)?;
        Ok(FilterCells { cells, alloc })
    }

    /// How many seats there are. It takes no memory.
    pub fn seats(&self) -> u32
        ensures { result ≡ length self.now.pending }
    {
        self.cells.seats()
    }

    /// The filter that the seat owns, if any. It takes no memory.
    pub fn owned(&self, seat: u32) -> Option<&Query>
        ensures { option_copied result ≡ owned_by self.now seat }
    {
        self.cells.owned(seat)
    }

    /// Looks a filter up for a seat that owns none: its set, or the seat that is computing it, or leave to compute it.
    ///
    /// Memory is wanting only where a set was found and could not be handed out, and then nothing changed.
    pub fn look(&mut self, key: Query, seat: u32) -> Result<FilterLook, NoMemory>
        requires seat { seat < length self.old.pending }
        requires idle { owned_by self.old seat ≡ None }
        ensures answer { IfOk result (λ a. look_of a ≡ filter_answer key self.old) }
        ensures after { OnOk result (self.new ≡ after_filter_look key seat self.old) }
        ensures cause { OnErr result (IsHit (filter_answer key self.old)) }
        ensures no_memory { OnErr result (self.new ≡ self.old) }
    {
        match self.cells.look(key, 0, seat)? {
            Look::Hit(filter) => Ok(FilterLook::Hit(filter.into_set())),
            Look::Join(key, owner) => Ok(FilterLook::Join(key, owner)),
            Look::Own => Ok(FilterLook::Own),
        }
    }

    /// Ends the pending filter of a seat that owns one, and stores its set first, unless it is heavier than the greatest
    /// weight.
    ///
    /// Where memory is wanting, the filter is no longer pending, and what is kept is as before.
    pub fn finish(&mut self, seat: u32, set: Arc<DocSet>) -> Result<(), NoMemory>
        requires { IsSome (owned_by self.old seat) }
        ensures after { OnOk result (self.new ≡ filter_finished seat (arc_value set) self.old) }
        ensures no_memory { OnErr result (self.new ≡ released seat self.old) }
    {
        self.cells.finish(seat, Filter { set }, true)?;
        Ok(())
    }

    /// Ends the pending filter of a seat that owns one, of which nothing is stored. It takes no memory.
    pub fn give_up(&mut self, seat: u32)
        requires { IsSome (owned_by self.old seat) }
        ensures { self.new ≡ released seat self.old }
    {
        let _key = self.cells.release(seat);
    }

    /// How many filters are kept. It takes no memory.
    pub fn len(&self) -> u32
        ensures { result ≡ length self.now.kept.entries }
    {
        self.cells.len()
    }

    /// Copies of the most recently used filters, at most `n`, the most recent first. It costs their length.
    pub fn recent(&self, n: u32) -> Result<Queries, NoMemory>
        ensures { IfOk result (λ keys. keys ≡ recent_keys n self.now.kept) }
    {
        let mut keys = Vec::new(self.alloc);
        for (key, _set) in self.cells.iter() {
            if keys.len() == n as usize {
                break;
            }
            keys.push(key.copy(self.alloc)?)?;
        }
        Ok(Items::from_vec(keys))
    }
}
