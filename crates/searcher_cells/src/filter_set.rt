use crate::cell_view::CellView;
use cache_cells::Value;
use cache_traces::Counted;
use doc_sets::DocSet;
use query_tree::Query;
use shared_cells::Kept;
use std::alloc::{AllocError, Global};
use std::marker::Model;
use std::sync::Arc;

/// The set of a filter. Contracts see the set.
#[derive(Drop)]
pub struct FilterSet {
    pub(crate) set: Arc<DocSet>,
}

impl Model for FilterSet {
    ghost use Rattle.std.specs.Ordering.{nat_cmp};
    ghost use Rattle.std.specs.FinSet as sets;
    ghost use Rattle.std.specs.Coded.{coded_ℕ};
    ghost use Rattle.std.specs.Arc.{arc_value};

    ghost Value = { sets.FinSet nat_cmp };

    ghost coded = { sets.code coded_ℕ };

    ghost view = { λ f. arc_value f.set };
}

impl FilterSet {
    ghost use Rattle.std.specs.Prelude.{◌≡◌};
    ghost use Rattle.std.specs.Arc.{arc_value};

    /// The set, to be kept.
    pub fn new(set: Arc<DocSet>) -> FilterSet
        ensures { result ≡ arc_value set }
    {
        FilterSet { set }
    }

    /// The set itself.
    pub fn into_set(self) -> Arc<DocSet>
        ensures { arc_value result ≡ self }
    {
        self.set
    }
}

impl Value for FilterSet {
    ghost use Rattle.filter_cache.specs.Filters.{filter_weight, any_set};

    ghost weight = { filter_weight };

    ghost serves = { λ _. any_set };

    fn weight_within(&self, most: u64) -> Option<u64> {
        let weight = 1 + u64::from(self.set.len());
        if weight <= most { Some(weight) } else { None }
    }

    fn serves(&self, _need: u64) -> bool {
        true
    }

    fn share(&self) -> Result<FilterSet, AllocError> {
        let set = Arc::try_clone(&self.set)?;
        Ok(FilterSet { set })
    }
}

impl Counted for FilterSet {
    ghost use Rattle.searcher_cells.specs.Sights.{size_of, any_size};

    type Numbers = u32;

    ghost numbers = { λ _. size_of };

    ghost keeps = { any_size };

    fn numbers(&self, _most: u32) -> u32 {
        self.set.len()
    }

    fn keeps(_of: &u32) -> bool {
        true
    }
}

impl Kept for FilterSet {
    ghost use Rattle.std.specs.Prelude.{None};
    ghost use Rattle.searcher_cells.specs.Sights.{FilterFits};

    type Key = Query;

    type View = CellView;

    ghost fits = { FilterFits };

    ghost size = { λ v. v.size };

    ghost greatest = { λ _. None };

    ghost seats = { λ v. v.seats };

    fn copy(alloc: Global, key: &Query) -> Result<Query, AllocError> {
        match key.copy(alloc) {
            Ok(copy) => Ok(copy),
            Err(_) => Err(AllocError),
        }
    }
}
