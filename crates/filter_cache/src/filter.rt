ghost use Rattle.std.specs.Prelude.{◌≡◌};
ghost use Rattle.std.specs.Arc.{arc_value};
ghost use Rattle.filter_cache.specs.Filters.{filter_weight, any_set};

use cache_cells::Value;
use doc_sets::DocSet;
use std::alloc::AllocError;
use std::marker::Model;
use std::sync::Arc;

// The set of a filter, seen as the set.
#[derive(Drop)]
pub(crate) struct Filter {
    pub(crate) set: Arc<DocSet>,
}

impl Model for Filter {
    ghost use Rattle.std.specs.Ordering.{nat_cmp};
    ghost use Rattle.std.specs.FinSet as sets;
    ghost use Rattle.std.specs.Coded.{coded_ℕ};
    ghost use Rattle.std.specs.Arc.{arc_value};

    ghost Value = { sets.FinSet nat_cmp };

    ghost coded = { sets.code coded_ℕ };

    ghost view = { λ f. arc_value f.set };
}

impl Filter {
    pub(crate) fn into_set(self) -> Arc<DocSet>
        ensures { arc_value result ≡ self }
    {
        self.set
    }
}

impl Value for Filter {
    ghost weight = { filter_weight };

    ghost serves = { λ _. any_set };

    fn weight_within(&self, most: u64) -> Option<u64> {
        let weight = 1 + u64::from(self.set.len());
        if weight <= most { Some(weight) } else { None }
    }

    fn serves(&self, _need: u64) -> bool {
        true
    }

    fn share(&self) -> Result<Filter, AllocError> {
        let set = Arc::try_clone(&self.set)?;
        Ok(Filter { set })
    }
}
