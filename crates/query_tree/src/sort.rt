ghost use Rattle.std.specs.Prelude.{◌≡◌, IfOk, Some, refl};
ghost use Rattle.std.proofs.Common.{ap};
ghost use Rattle.std.specs.Cmp.{eq_by_cmp_equiv, partial_equiv_from_equiv, po};
ghost use Rattle.query_tree.specs.Order.{sort_cmp, sort_eq};
ghost use Rattle.query_tree.specs.OrderLaws.{sort_cmp_total, sort_eq-same};
ghost use Rattle.query_tree.specs.Feed.{sort_fed};

use field_schema::{FieldNo, NoMemory};
use std::alloc::Global;
use std::cmp::Ordering;
use std::hash::{Hash, Hasher};
use std::marker::Model;

/// What documents are compared by. Fields stand by their place, and the index order last.
#[derive(Clone, Copy, Debug, PartialEq, Eq, PartialOrd, Ord, Hash)]
pub enum SortBy {
    /// The first value of a field.
    Field(FieldNo),
    /// The index order.
    DocId,
}

/// One key of a sort. Keys stand by what they compare, and of two that compare the same the rising one first.
#[derive(Clone, Copy, Debug, PartialEq, Eq, PartialOrd, Ord, Hash)]
pub struct SortKey {
    pub by: SortBy,
    /// Whether greater comes first.
    pub down: bool,
}

/// The keys of a sort, the first one most telling. Sorts stand by the first keys that differ, else the shorter
/// one first.
#[derive(Debug, Drop)]
pub struct Sort {
    keys: Vec<SortKey>,
}

impl Model for Sort {
    ghost use Rattle.std.specs.Prelude.{List};
    ghost use Rattle.query_tree.specs.declared.sort.SortKey.{SortKey};

    ghost Value = { List SortKey };

    ghost view = { λ s. s.keys.items };
}

impl Sort {
    /// Wraps a vector, without memory.
    pub fn new(keys: Vec<SortKey>) -> Sort
        ensures { result ≡ keys.items }
    {
        Sort { keys }
    }

    /// The keys, without memory.
    pub fn get(&self) -> &[SortKey]
        ensures { result.now ≡ self.now }
    {
        self.keys.as_slice()
    }

    /// An equal sort. It costs the number of keys.
    pub fn copy(&self, alloc: Global) -> Result<Sort, NoMemory>
        ensures { IfOk result (λ s. s ≡ self.now) }
    {
        let keys = Vec::from_slice(alloc, self.keys.as_slice())?;
        Ok(Sort { keys })
    }
}

impl PartialEq for Sort {
    ghost eq = { sort_eq };

    ghost laws = { partial_equiv_from_equiv (eq_by_cmp_equiv sort_cmp_total) };

    fn eq(&self, other: &Sort) -> bool {
        self.cmp(other).is_eq()
    }
}

impl Eq for Sort {
    ghost laws = { eq_by_cmp_equiv sort_cmp_total };
}

impl PartialOrd for Sort {
    ghost partial_cmp = { λ x y. Some (sort_cmp x y) };

    ghost laws = { po sort_cmp_total (λ x y. refl) };

    fn partial_cmp(&self, other: &Sort) -> Option<Ordering> {
        Some(self.cmp(other))
    }
}

impl Ord for Sort {
    ghost cmp = { sort_cmp };

    ghost total = { sort_cmp_total };

    ghost matches_partial_cmp = { λ x y. refl };

    ghost matches_eq = { λ x y. refl };

    fn cmp(&self, other: &Sort) -> Ordering {
        self.get().cmp(other.get())
    }
}

impl Hash for Sort {
    ghost hash_input = { sort_fed };

    ghost respects_eq = { λ x y e. ap sort_fed (sort_eq-same x y e) };

    fn hash<H: Hasher>(&self, state: &mut H) {
        self.get().hash(state);
    }
}
