//! The numbers of the calls that were made of a cache.
ghost use Rattle.std.specs.Prelude.{◌≡◌, ◌-◌, ◌^◌, count_by, min, sum_by};
ghost use Rattle.searcher_books.specs.Books.{book_of, is_put, is_store_hit, is_store_look};
ghost use Rattle.searcher_books.specs.Books.{store_book_of, store_calls_as};
ghost use Rattle.searcher_books.specs.Records.{hit, kept, listed, looked_first, many_listed};

use cache_traces::{Done, Record, StoreAct, StoreStep, Told, Trace};
use shared_cells::Kept;

/// The numbers of the calls that were made of a cache.
#[derive(Clone, Copy, Debug, PartialEq, Eq, Drop)]
pub struct Book {
    /// How many look-ups there were. One that is asked again, since another caller was computing the key, counts once.
    pub lookups: u64,
    /// How many look-ups found an entry.
    pub hits: u64,
    /// How many values were kept.
    pub stores: u64,
    /// How often the most recently used keys were listed.
    pub recents: u64,
    /// How many keys these lists gave together, at most the greatest number.
    pub keys: u64,
}

// Whether a call is a look-up, but not one that is asked again.
fn is_first_look<N: Drop>(done: &Done<N>) -> bool
    ensures { result ≡ looked_first done.now }
{
    match done {
        Done::Looked { again, .. } => !*again,
        _ => false,
    }
}

// Whether it is a look-up that found an entry.
fn is_hit<N: Drop>(done: &Done<N>) -> bool
    ensures { result ≡ hit done.now }
{
    match done {
        Done::Looked { told, .. } => matches!(told, Told::Hit),
        _ => false,
    }
}

// Whether it kept a value.
fn is_store<V: Kept>(done: &Done<V::Numbers>) -> bool
    ensures { result ≡ kept V.keeps done.now }
{
    match done {
        Done::Finished {
            numbers,
            stored,
            ..
        } => *stored && V::keeps(numbers),
        _ => false,
    }
}

// Whether it listed keys.
fn is_listed<N: Drop>(done: &Done<N>) -> bool
    ensures { result ≡ listed done.now }
{
    matches!(done, Done::Listed { .. })
}

// How many keys it listed.
fn keys_in<N: Drop>(done: &Done<N>) -> u64
    ensures { result ≡ many_listed done.now }
{
    match done {
        Done::Listed { keys, .. } => keys.len() as u64,
        _ => 0,
    }
}

// How many keys calls listed, at most the greatest number.
fn keys_listed<N: Drop>(records: &[Record<N>]) -> u64
    ensures { result ≡ min (sum_by (λ r. many_listed r.done) records.now) (2 ^ 64 - 1) }
{
    let mut keys: u64 = 0;
    for record in records {
        keys = keys.saturating_add(keys_in(&record.done));
    }
    keys
}

// How many calls are look-ups, but not ones that are asked again.
fn first_looks<N: Drop>(records: &[Record<N>]) -> usize
    ensures { result ≡ count_by (λ r. looked_first r.done) records.now }
{
    records
        .iter()
        .filter(|record| is_first_look(&record.done))
        .count()
}

// How many found an entry.
fn hits<N: Drop>(records: &[Record<N>]) -> usize
    ensures { result ≡ count_by (λ r. hit r.done) records.now }
{
    records.iter().filter(|record| is_hit(&record.done)).count()
}

// How many kept a value.
fn stores<V: Kept>(records: &[Record<V::Numbers>]) -> usize
    ensures { result ≡ count_by (λ r. kept V.keeps r.done) records.now }
{
    records
        .iter()
        .filter(|record| is_store::<V>(&record.done))
        .count()
}

// How many listed keys.
fn lists<N: Drop>(records: &[Record<N>]) -> usize
    ensures { result ≡ count_by (λ r. listed r.done) records.now }
{
    records
        .iter()
        .filter(|record| is_listed(&record.done))
        .count()
}

// The book of a cache.
pub(crate) fn of_trace<V: Kept>(trace: &Trace<V::Key, V::Numbers>) -> Book
    ensures { result ≡ book_of V.keeps trace.now.steps }
{
    let records = trace.records();
    Book {
        lookups: first_looks(records) as u64,
        hits: hits(records) as u64,
        stores: stores::<V>(records) as u64,
        recents: lists(records) as u64,
        keys: keys_listed(records),
    }
}

// Whether a call of a store is a look-up.
fn is_look<N: Drop>(act: &StoreAct<N>) -> bool
    ensures { result ≡ is_store_look act.now }
{
    matches!(act, StoreAct::Looked { .. })
}

// Whether it is a look-up that found an entry.
fn found<N: Drop>(act: &StoreAct<N>) -> bool
    ensures { result ≡ is_store_hit act.now }
{
    match act {
        StoreAct::Looked { hit, .. } => *hit,
        StoreAct::Put { .. } => false,
    }
}

// Whether it put a value.
fn is_put_call<N: Drop>(act: &StoreAct<N>) -> bool
    ensures { result ≡ is_put act.now }
{
    matches!(act, StoreAct::Put { .. })
}

fn store_looks<N: Drop>(steps: &[StoreStep<N>]) -> usize
    ensures { result ≡ store_calls_as is_store_look steps.now }
{
    steps.iter().filter(|step| is_look(&step.act)).count()
}

fn store_hits<N: Drop>(steps: &[StoreStep<N>]) -> usize
    ensures { result ≡ store_calls_as is_store_hit steps.now }
{
    steps.iter().filter(|step| found(&step.act)).count()
}

fn puts<N: Drop>(steps: &[StoreStep<N>]) -> usize
    ensures { result ≡ store_calls_as is_put steps.now }
{
    steps.iter().filter(|step| is_put_call(&step.act)).count()
}

// The book of a store, which lists no keys.
pub(crate) fn of_store<N: Drop>(steps: &[StoreStep<N>]) -> Book
    ensures { result ≡ store_book_of steps.now }
{
    Book {
        lookups: store_looks(steps) as u64,
        hits: store_hits(steps) as u64,
        stores: puts(steps) as u64,
        recents: 0,
        keys: 0,
    }
}
