ghost use Rattle.std.specs.Prelude.{◌≡◌};
ghost use Rattle.std.specs.Arc.{arc_value};
ghost use Rattle.result_cache.specs.Entries.{result_weight, serves};

use crate::Entry;
use cache_cells::Value;
use std::alloc::AllocError;
use std::marker::Model;
use std::sync::Arc;

// A shared entry, seen as the entry.
#[derive(Drop)]
pub(crate) struct Kept {
    pub(crate) entry: Arc<Entry>,
}

impl Model for Kept {
    ghost use Rattle.std.specs.Arc.{arc_value};
    ghost use Rattle.result_cache.specs.declared.entry.Entry.{Entry};

    ghost Value = { Entry };

    ghost view = { λ k. arc_value k.entry };
}

impl Kept {
    pub(crate) fn into_entry(self) -> Arc<Entry>
        ensures { arc_value result ≡ self }
    {
        self.entry
    }
}

impl Value for Kept {
    ghost weight = { result_weight };

    ghost serves = { serves };

    fn weight_within(&self, most: u64) -> Option<u64> {
        let weight = 1 + self.entry.ids.get().len() as u64;
        if weight <= most { Some(weight) } else { None }
    }

    fn serves(&self, need: u64) -> bool {
        let ids = self.entry.ids.get().len() as u64;
        need <= ids || ids == u64::from(self.entry.found)
    }

    fn share(&self) -> Result<Kept, AllocError> {
        let entry = Arc::try_clone(&self.entry)?;
        Ok(Kept { entry })
    }
}
