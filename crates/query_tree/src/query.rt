ghost use Rattle.std.specs.Prelude.{◌≡◌, IfOk, Some, refl, fold};
ghost use Rattle.std.proofs.Common.{ap};
ghost use Rattle.std.specs.Cmp.{eq_by_cmp_equiv, partial_equiv_from_equiv, po};
ghost use Rattle.query_tree.specs.declared.query.Query.{out-Query};
ghost use Rattle.query_tree.specs.Order.{kind, query_cmp, query_eq, queries_cmp};
ghost use Rattle.query_tree.specs.QueryLaws.{query_cmp_total, query_eq-same};
ghost use Rattle.std.specs.Hash as fed;
ghost use Rattle.query_tree.specs.Feed.{query_fed};

use field_schema::{FieldNo, Key, NoMemory, Text, Texts};
use sqlite_items::Items;
use std::alloc::Global;
use std::cmp::Ordering;
use std::hash::{Hash, Hasher};

/// A list of queries. Its slices stand by the first queries that differ, else the shorter one first.
pub type Queries = Items<Query>;

/// One end of a range. An open end stands first, then ends by their keys, and of two ends at one key the one that
/// leaves it out.
#[derive(Debug, Drop, PartialEq, Eq, PartialOrd, Ord, Hash)]
pub enum End {
    /// The range has no end here.
    Open,
    /// The range ends at a key, which it includes or not.
    At { key: Key, inclusive: bool },
}

impl End {
    /// An equal end. It costs the length of its key.
    pub fn copy(&self, alloc: Global) -> Result<End, NoMemory>
        ensures { IfOk result (λ e. e ≡ self.now) }
    {
        match self {
            End::Open => Ok(End::Open),
            End::At { key, inclusive } => Ok(End::At {
                key: key.copy(alloc)?,
                inclusive: *inclusive,
            }),
        }
    }
}

/// What is asked of a document.
///
/// Queries stand by kind as the kinds stand here, then by field, then by contents in their order. Equal queries are
/// one value. To compare or to hash costs the query's length, and a stack frame or two a level; parsed queries are at
/// most 65 levels deep.
#[derive(Debug, Drop)]
pub enum Query {
    /// Any document.
    All,
    /// It has a key in the field.
    Exists(FieldNo),
    /// It has this key in the field.
    Term(FieldNo, Key),
    /// The tokens stand in turn inside one text of the field.
    Words(FieldNo, Texts),
    /// A string or a token of the field begins with the text.
    Prefix(FieldNo, Text),
    /// A key of the field lies between two ends.
    Range(FieldNo, End, End),
    /// All of `must` match, none of `not`, and where `must` is empty at least one of `should`.
    Bool {
        must: Queries,
        should: Queries,
        not: Queries,
    },
}

impl Query {
    /// An equal query. It costs the query's length, and two stack frames a level; parsed queries are at most 65
    /// levels deep.
    #[cycle(copying)]
    pub fn copy(&self, alloc: Global) -> Result<Query, NoMemory>
        ensures { IfOk result (λ q. q ≡ self.now) }
    {
        match self {
            Query::All => Ok(Query::All),
            Query::Exists(field) => Ok(Query::Exists(*field)),
            Query::Term(field, key) => Ok(Query::Term(*field, key.copy(alloc)?)),
            Query::Words(field, words) => Ok(Query::Words(*field, words.copy(alloc)?)),
            Query::Prefix(field, text) => Ok(Query::Prefix(*field, text.copy(alloc)?)),
            Query::Range(field, low, high) => {
                Ok(Query::Range(*field, low.copy(alloc)?, high.copy(alloc)?))
            }
            Query::Bool { must, should, not } => Ok(Query::Bool {
                must: copy_queries(alloc, must.as_slice())?,
                should: copy_queries(alloc, should.as_slice())?,
                not: copy_queries(alloc, not.as_slice())?,
            }),
        }
    }
}

// An equal list.
#[cycle(copying)]
fn copy_queries(alloc: Global, queries: &[Query]) -> Result<Queries, NoMemory>
    ensures { IfOk result (λ qs. qs ≡ queries.now) }
{
    let mut items = Vec::with_capacity(alloc, queries.len())?;
    for query in queries {
        items.push(query.copy(alloc)?)?;
    }
    Ok(Items::from_vec(items))
}

impl PartialEq for Query {
    ghost eq = { query_eq };

    ghost laws = { partial_equiv_from_equiv (eq_by_cmp_equiv query_cmp_total) };

    fn eq(&self, other: &Query) -> bool {
        self.cmp(other).is_eq()
    }
}

impl Eq for Query {
    ghost laws = { eq_by_cmp_equiv query_cmp_total };
}

impl PartialOrd for Query {
    ghost partial_cmp = { λ x y. Some (query_cmp x y) };

    ghost laws = { po query_cmp_total (λ x y. refl) };

    fn partial_cmp(&self, other: &Query) -> Option<Ordering> {
        Some(self.cmp(other))
    }
}

impl Ord for Query {
    ghost cmp = { query_cmp };

    ghost total = { query_cmp_total };

    ghost matches_partial_cmp = { λ x y. refl };

    ghost matches_eq = { λ x y. refl };

    fn cmp(&self, other: &Query) -> Ordering {
        compare(self, other)
    }
}

// The place of its kind among the kinds.
fn kind_of(query: &Query) -> u8
    ensures { result ≡ kind (out-Query query.now) }
{
    match query {
        Query::All => 0,
        Query::Exists(_) => 1,
        Query::Term(_, _) => 2,
        Query::Words(_, _) => 3,
        Query::Prefix(_, _) => 4,
        Query::Range(_, _, _) => 5,
        Query::Bool { .. } => 6,
    }
}

// By kind, then by field, then by contents.
#[cycle(comparing)]
fn compare(query: &Query, other: &Query) -> Ordering
    ensures { result ≡ query_cmp query.now other.now }
{
    match (query, other) {
        (Query::All, Query::All) => Ordering::Equal,
        (Query::Exists(field), Query::Exists(others)) => field.cmp(others),
        (Query::Term(field, key), Query::Term(others, sought)) => {
            field.cmp(others).then(key.cmp(sought))
        }
        (Query::Words(field, words), Query::Words(others, sought)) => {
            field.cmp(others).then(words.cmp(sought))
        }
        (Query::Prefix(field, text), Query::Prefix(others, sought)) => {
            field.cmp(others).then(text.cmp(sought))
        }
        (Query::Range(field, low, high), Query::Range(others, least, most)) => field
            .cmp(others)
            .then(low.cmp(least))
            .then(high.cmp(most)),
        (
            Query::Bool { must, should, not },
            Query::Bool {
                must: required,
                should: optional,
                not: prohibited,
            },
        ) => {
            let order = compare_all(must.as_slice(), required.as_slice());
            if order.is_ne() {
                return order;
            }
            let order = compare_all(should.as_slice(), optional.as_slice());
            if order.is_ne() {
                return order;
            }
            compare_all(not.as_slice(), prohibited.as_slice())
        }
        _ => kind_of(query).cmp(&kind_of(other)),
    }
}

// By the first queries that differ, else by length.
#[cycle(comparing)]
fn compare_all(queries: &[Query], others: &[Query]) -> Ordering
    ensures { result ≡ queries_cmp queries.now others.now }
{
    for i in 0..queries.len().min(others.len()) {
        let order = compare(&queries[i], &others[i]);
        if order.is_ne() {
            return order;
        }
    }
    queries.len().cmp(&others.len())
}

impl Hash for Query {
    ghost hash_input = { query_fed };

    ghost respects_eq = { λ x y e. ap query_fed (query_eq-same x y e) };

    fn hash<H: Hasher>(&self, state: &mut H) {
        feed(self, state);
    }
}

// The kind, then the field, then the contents.
#[cycle(feeding)]
fn feed<H: Hasher>(query: &Query, state: &mut H)
    ensures { state.new ≡ fold H.write state.old (query_fed query.now) }
{
    state.write_u8(kind_of(query));
    match query {
        Query::All => {}
        Query::Exists(field) => field.hash(state),
        Query::Term(field, key) => {
            field.hash(state);
            key.hash(state);
        }
        Query::Words(field, words) => {
            field.hash(state);
            words.hash(state);
        }
        Query::Prefix(field, text) => {
            field.hash(state);
            text.hash(state);
        }
        Query::Range(field, low, high) => {
            field.hash(state);
            low.hash(state);
            high.hash(state);
        }
        Query::Bool { must, should, not } => {
            feed_all(must.as_slice(), state);
            feed_all(should.as_slice(), state);
            feed_all(not.as_slice(), state);
        }
    }
}

// The length, then each query.
#[cycle(feeding)]
fn feed_all<H: Hasher>(queries: &[Query], state: &mut H)
    ensures { state.new ≡ fold H.write state.old (fed.slice query_fed queries.now) }
{
    queries.len().hash(state);
    for query in queries {
        feed(query, state);
    }
}
