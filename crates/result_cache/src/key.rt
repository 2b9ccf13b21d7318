ghost use Rattle.std.specs.Prelude.{◌≡◌, ◌++◌, ◌↔◌, IfOk, Some, Contains, refl};
ghost use Rattle.std.proofs.Common.{ap};
ghost use Rattle.std.specs.List.Sorted.{IsStrictlySortedBy};
ghost use Rattle.std.specs.Cmp.{eq_by_cmp_equiv, partial_equiv_from_equiv, po};
ghost use Rattle.query_tree.specs.declared.query.Query.{Query};
ghost use Rattle.query_tree.specs.Order.{query_cmp};

use field_schema::NoMemory;
use query_tree::{Queries, Query, Sort};
use sqlite_items::Items;
use std::alloc::Global;
use std::cmp::Ordering;
use std::hash::{Hash, Hasher};

/// What a result is kept under: the main query, its filters in their order, each once, and the sort.
///
/// Keys stand by the query, then by the filters, then by the sort. Equal keys are one value. To compare or to hash costs
/// the lengths of the queries and the sort.
#[derive(Debug, Drop)]
pub struct ResultKey {
    pub q: Query,
    pub filters: Queries,
    pub sort: Sort,
}

impl ResultKey {
    ghost use Rattle.result_cache.specs.Keys.{HasFilters};

    /// The key of a query with these filters and this sort. It costs their lengths, and sorting the filters.
    pub fn make(
        alloc: Global,
        q: &Query,
        filters: &Queries,
        sort: &Sort,
    ) -> Result<ResultKey, NoMemory>
        ensures query { IfOk result (λ key. key.q ≡ q.now) }
        ensures ascending { IfOk result (λ key. IsStrictlySortedBy query_cmp key.filters) }
        ensures filters { IfOk result (λ key. HasFilters key filters.now) }
        ensures sort { IfOk result (λ key. key.sort ≡ sort.now) }
    {
        let mut sorted = copies(alloc, filters.as_slice())?;
        sorted.sort_unstable();
        sorted.dedup();
        Ok(ResultKey {
            q: q.copy(alloc)?,
            filters: Items::from_vec(sorted),
            sort: sort.copy(alloc)?,
        })
    }

    /// An equal key. It costs the key's length.
    pub fn copy(&self, alloc: Global) -> Result<ResultKey, NoMemory>
        ensures { IfOk result (λ key. key ≡ self.now) }
    {
        let filters = copies(alloc, self.filters.as_slice())?;
        Ok(ResultKey {
            q: self.q.copy(alloc)?,
            filters: Items::from_vec(filters),
            sort: self.sort.copy(alloc)?,
        })
    }
}

// Equal queries.
fn copies(alloc: Global, queries: &[Query]) -> Result<Vec<Query>, NoMemory>
    ensures { IfOk result (λ qs. qs.items ≡ queries.now) }
{
    let mut copied = Vec::with_capacity(alloc, queries.len())?;
    for query in queries {
        copied.push(query.copy(alloc)?)?;
    }
    Ok(copied)
}

impl PartialEq for ResultKey {
    ghost use Rattle.result_cache.specs.Keys.{result_key_eq, result_key_cmp_total};

    ghost eq = { result_key_eq };

    ghost laws = { partial_equiv_from_equiv (eq_by_cmp_equiv result_key_cmp_total) };

    fn eq(&self, other: &ResultKey) -> bool {
        self.cmp(other).is_eq()
    }
}

impl Eq for ResultKey {
    ghost use Rattle.result_cache.specs.Keys.{result_key_cmp_total};

    ghost laws = { eq_by_cmp_equiv result_key_cmp_total };
}

impl PartialOrd for ResultKey {
    ghost use Rattle.result_cache.specs.Keys.{result_key_cmp, result_key_cmp_total};

    ghost partial_cmp = { λ x y. Some (result_key_cmp x y) };

    ghost laws = { po result_key_cmp_total (λ x y. refl) };

    fn partial_cmp(&self, other: &ResultKey) -> Option<Ordering> {
        Some(self.cmp(other))
    }
}

impl Ord for ResultKey {
    ghost use Rattle.result_cache.specs.Keys.{result_key_cmp, result_key_cmp_total};

    ghost cmp = { result_key_cmp };

    ghost total = { result_key_cmp_total };

    ghost matches_partial_cmp = { λ x y. refl };

    ghost matches_eq = { λ x y. refl };

    fn cmp(&self, other: &ResultKey) -> Ordering {
        self.q
            .cmp(&other.q)
            .then_with(|| self.filters.as_slice().cmp(other.filters.as_slice()))
            .then_with(|| self.sort.cmp(&other.sort))
    }
}

impl Hash for ResultKey {
    ghost use Rattle.result_cache.specs.Keys.{result_key_fed, result_key_eq-same};

    ghost hash_input = { result_key_fed };

    ghost respects_eq = { λ x y e. ap result_key_fed (result_key_eq-same x y e) };

    fn hash<H: Hasher>(&self, state: &mut H) {
        self.q.hash(state);
        self.filters.as_slice().hash(state);
        self.sort.hash(state);
    }
}
