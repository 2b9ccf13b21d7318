use crate::cell_view::CellView;
use cache_cells::Value;
use cache_traces::Counted;
use result_cache::{Entry, ResultKey};
use shared_cells::Kept;
use std::alloc::{AllocError, Global};
use std::marker::Model;
use std::sync::Arc;

/// A result. Contracts see the entry.
#[derive(Drop)]
pub struct ResultEntry {
    pub(crate) entry: Arc<Entry>,
}

/// The numbers of a result: how many documents it lists, how many were found, and how many it may list at most to be kept.
#[derive(Clone, Copy, Debug, PartialEq, Eq, Drop)]
pub struct ResultNumbers {
    pub ids: u64,
    pub found: u32,
    pub most: u32,
}

impl Model for ResultEntry {
    ghost use Rattle.std.specs.Arc.{arc_value};
    ghost use Rattle.result_cache.specs.declared.entry.Entry.{Entry};

    ghost Value = { Entry };

    ghost view = { λ k. arc_value k.entry };
}

impl ResultEntry {
    ghost use Rattle.std.specs.Prelude.{◌≡◌};
    ghost use Rattle.std.specs.Arc.{arc_value};

    /// The entry, to be kept.
    pub fn new(entry: Arc<Entry>) -> ResultEntry
        ensures { result ≡ arc_value entry }
    {
        ResultEntry { entry }
    }

    /// The entry itself.
    pub fn into_entry(self) -> Arc<Entry>
        ensures { arc_value result ≡ self }
    {
        self.entry
    }
}

impl Value for ResultEntry {
    ghost use Rattle.result_cache.specs.Entries.{result_weight, serves};

    ghost weight = { result_weight };

    ghost serves = { serves };

    fn weight_within(&self, most: u64) -> Option<u64> {
        let weight = 1 + self.entry.ids.get().len() as u64;
        if weight <= most { Some(weight) } else { None }
    }

    fn serves(&self, need: u64) -> bool {
        let ids = self.entry.ids.get().len() as u64;
        need <= ids || ids == u64::from(self.entry.found)
    }

    fn share(&self) -> Result<ResultEntry, AllocError> {
        let entry = Arc::try_clone(&self.entry)?;
        Ok(ResultEntry { entry })
    }
}

impl Counted for ResultEntry {
    ghost use Rattle.searcher_cells.specs.Sights.{numbers_of, is_kept};

    type Numbers = ResultNumbers;

    ghost numbers = { numbers_of };

    ghost keeps = { is_kept };

    fn numbers(&self, most: u32) -> ResultNumbers {
        ResultNumbers {
            ids: self.entry.ids.get().len() as u64,
            found: self.entry.found,
            most,
        }
    }

    fn keeps(of: &ResultNumbers) -> bool {
        of.ids <= u64::from(of.most)
    }
}

impl Kept for ResultEntry {
    ghost use Rattle.std.specs.Prelude.{None};
    ghost use Rattle.searcher_cells.specs.Sights.{ResultFits};

    type Key = ResultKey;

    type View = CellView;

    ghost fits = { ResultFits };

    ghost size = { λ v. v.size };

    ghost greatest = { λ _. None };

    ghost seats = { λ v. v.seats };

    fn copy(alloc: Global, key: &ResultKey) -> Result<ResultKey, AllocError> {
        match key.copy(alloc) {
            Ok(copy) => Ok(copy),
            Err(_) => Err(AllocError),
        }
    }
}
