//! The request that has a key's result.
ghost use Rattle.std.specs.Prelude.{◌≡◌, IfOk, map};
ghost use Rattle.autowarm.specs.WarmRequests.{past_caches, request_of};

use field_schema::{FieldList, NoMemory};
use query_tree::Query;
use request_form::{Filter, Filters, Request};
use result_cache::ResultKey;
use sqlite_items::Items;
use std::alloc::Global;

// The request of a key: its result alone is asked for, no page of it, and no filter's cache.
pub(crate) fn request_of(alloc: Global, key: &ResultKey) -> Result<Request, NoMemory>
    ensures { IfOk result (λ r. r ≡ request_of key.now) }
{
    Ok(Request {
        q: key.q.copy(alloc)?,
        q_cached: true,
        filters: past_caches(alloc, key.filters.as_slice())?,
        sort: key.sort.copy(alloc)?,
        start: 0,
        rows: 0,
        fields: FieldList::All,
    })
}

// Filters that go past the caches.
fn past_caches(alloc: Global, queries: &[Query]) -> Result<Filters, NoMemory>
    ensures { IfOk result (λ fs. fs ≡ map past_caches queries.now) }
{
    let mut filters = Vec::with_capacity(alloc, queries.len())?;
    for query in queries {
        filters.push(Filter {
            query: query.copy(alloc)?,
            cached: false,
            cost: 0,
        })?;
    }
    Ok(Items::from_vec(filters))
}
