ghost use Rattle.std.specs.Prelude.{◌≡◌, ◌≤◌, ◌<◌, length, IfOk, OnOk, OnErr, IsSome, None, option_copied};
ghost use Rattle.std.specs.Option.{ForSome};
ghost use Rattle.std.specs.Arc.{arc_value};
ghost use Rattle.cache_machine.specs.Machine.{empty_cache, owned_by, released, recent_keys};
ghost use Rattle.cache_machine.specs.Runs.{IsHit};
ghost use Rattle.result_cache.specs.Looks.{look_of};
ghost use Rattle.result_cache.specs.Results.{result_answer, after_result_look, result_given};

use crate::kept::Kept;
use crate::{Entry, ResultKey};
use cache_cells::Cells;
use cache_machine::Look;
use field_schema::NoMemory;
use std::alloc::Global;
use std::marker::Model;
use std::sync::Arc;

/// What a look-up of a result is answered.
#[derive(Drop)]
pub enum ResultLook {
    /// An entry that serves, which is now the most recently used.
    Hit(Arc<Entry>),
    /// Another caller is computing it: the key, and that caller's seat.
    Join(ResultKey, u32),
    /// Nobody is. The caller's seat owns the key from now on, and computes its result.
    Own,
}

/// The result cache. Contracts see the machine's state: keys with their entries, the most recently used first, and by
/// seat the key whose result its caller is computing.
///
/// A look-up costs the hash of the key, once more where it hits, and a comparison with each key that seats own; the other
/// calls but `recent` cost a step, and one for each entry that they drop.
#[derive(Drop)]
pub struct ResultCells {
    cells: Cells<ResultKey, Kept>,
    alloc: Global,
}

impl Model for ResultCells {
    ghost use Rattle.result_cache.specs.declared.key.ResultKey.{ResultKey};
    ghost use Rattle.result_cache.specs.declared.entry.Entry.{Entry};
    ghost use Rattle.result_cache.specs.contracts.key.ResultKey as key;
    ghost use Rattle.result_cache.specs.contracts.entry.Entry as entry;
    ghost use Rattle.cache_machine.specs.Machine.{Cache, cache_code};

    ghost Value = { Cache ResultKey Entry };

    ghost coded = { cache_code key.the_row.coded entry.the_row.coded };

    ghost view = { λ c. c.cells };
}

impl ResultCells {
    /// A cache of at most `size` results, which weigh at most `weight` together where it is there, for so many seats. It
    /// keeps nothing yet, and takes memory for its seats.
    ///
    /// A result weighs 1, and 1 for each document that it lists.
    pub fn new(
        alloc: Global,
        size: u32,
        weight: Option<u64>,
        seats: u32,
    ) -> Result<ResultCells, NoMemory>
        requires size { (0 < size) × (size ≤ 4096) }
        requires weight { ForSome weight (λ most. 0 < most) }
        requires seats { 0 < seats }
        ensures { IfOk result (λ c. c ≡ empty_cache size weight seats) }
    {
        let cells = Cells::new(alloc, size, weight, seats)?;
        Ok(ResultCells { cells, alloc })
    }

    /// How many seats there are. It takes no memory.
    pub fn seats(&self) -> u32
        ensures { result ≡ length self.now.pending }
    {
        self.cells.seats()
    }

    /// The key that the seat owns, if any. It takes no memory.
    pub fn owned(&self, seat: u32) -> Option<&ResultKey>
        ensures { option_copied result ≡ owned_by self.now seat }
    {
        self.cells.owned(seat)
    }

    /// Looks a key up for a seat that owns none: its entry where that lists so many documents or all that were found, or
    /// the seat that is computing it, or leave to compute it. An entry that is too short stays where it is.
    ///
    /// Memory is wanting only where an entry was found and could not be handed out, and then nothing changed.
    pub fn look(&mut self, key: ResultKey, need: u64, seat: u32) -> Result<ResultLook, NoMemory>
        requires seat { seat < length self.old.pending }
        requires idle { owned_by self.old seat ≡ None }
        ensures answer { IfOk result (λ a. look_of a ≡ result_answer key need self.old) }
        ensures after { OnOk result (self.new ≡ after_result_look key need seat self.old) }
        ensures cause { OnErr result (IsHit (result_answer key need self.old)) }
        ensures no_memory { OnErr result (self.new ≡ self.old) }
    {
        match self.cells.look(key, need, seat)? {
            Look::Hit(kept) => Ok(ResultLook::Hit(kept.into_entry())),
            Look::Join(key, owner) => Ok(ResultLook::Join(key, owner)),
            Look::Own => Ok(ResultLook::Own),
        }
    }

    /// Ends the pending key of a seat that owns one, and stores its entry first, in place of one with its key, unless it
    /// lists more than `most` documents or is heavier than the greatest weight.
    ///
    /// Where memory is wanting, the key is no longer pending, and what is kept is as before.
    pub fn finish(&mut self, seat: u32, entry: Arc<Entry>, most: u32) -> Result<(), NoMemory>
        requires { IsSome (owned_by self.old seat) }
        ensures after { OnOk result (self.new ≡ result_given seat (arc_value entry) most self.old) }
        ensures no_memory { OnErr result (self.new ≡ released seat self.old) }
    {
        let is_short = entry.ids.get().len() <= most as usize;
        self.cells.finish(seat, Kept { entry }, is_short)?;
        Ok(())
    }

    /// Ends the pending key of a seat that owns one, of which nothing is stored. It takes no memory.
    pub fn give_up(&mut self, seat: u32)
        requires { IsSome (owned_by self.old seat) }
        ensures { self.new ≡ released seat self.old }
    {
        let _key = self.cells.release(seat);
    }

    /// How many results are kept. It takes no memory.
    pub fn len(&self) -> u32
        ensures { result ≡ length self.now.kept.entries }
    {
        self.cells.len()
    }

    /// Copies of the most recently used keys, at most `n`, the most recent first. It costs their length.
    pub fn recent(&self, n: u32) -> Result<Vec<ResultKey>, NoMemory>
        ensures { IfOk result (λ keys. keys.items ≡ recent_keys n self.now.kept) }
    {
        let mut keys = Vec::new(self.alloc);
        for (key, _entry) in self.cells.iter() {
            if keys.len() == n as usize {
                break;
            }
            keys.push(key.copy(self.alloc)?)?;
        }
        Ok(keys)
    }
}
