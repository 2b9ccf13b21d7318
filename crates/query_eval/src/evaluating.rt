//! The documents of a view that a query matches.
ghost use Rattle.std.specs.Prelude.{◌≡◌, ◌&&◌, IfOk, IsTrue, map, not};
ghost use Rattle.query_tree.specs.declared.query.Query.{out-Query};
ghost use Rattle.query_tree.specs.Matches.{is_negative};
ghost use Rattle.segment_postings.specs.Numbered.{IsNumbered};
ghost use Rattle.query_eval.specs.Found.{answer, part};
ghost use Rattle.query_eval.specs.Kept.{Asks, Kept};

use crate::keys::{beginning, between, term};
use crate::phrase::phrase;
use crate::sets::{common, copy_of, united, without};
use doc_sets::DocSet;
use field_schema::NoMemory;
use query_tree::{End, Queries, Query};
use segment_postings::Reads;
use std::alloc::Global;

/// The numbers of the live documents that a query matches.
///
/// A query of prohibited parts alone matches each document that none of them matches where it is the whole query, and
/// nothing where it stands inside another: so Solr's Standard Query Parser has it.
///
/// Fails only for want of memory. The view and its terms stay as they are; no sort value and no document is read.
/// A key asks for its postings once, also where it fails, and `*:*` asks for nothing.
///
/// It costs what the places of its keys and words come to, for a range, a prefix or an existence those of the keys
/// between its ends; for the set of each a step for each 64 numbers of the view, or a sort of its numbers where they are few;
/// and for a Boolean query its parts' sets, each copied as often as the logarithm of their number.
pub fn eval<P: Reads>(alloc: Global, probe: &mut P, query: &Query) -> Result<DocSet, NoMemory>
    ensures found { IfOk result (λ s. s ≡ answer query.now (P.view probe.old)) }
    ensures view { P.view probe.new ≡ P.view probe.old }
    ensures terms { P.terms probe.new ≡ P.terms probe.old }
    ensures values_count { (P.counted probe.new).values ≡ (P.counted probe.old).values }
    ensures stored_count { (P.counted probe.new).stored ≡ (P.counted probe.old).stored }
    ensures postings_count { Asks (out-Query query.now) (P.counted probe.old).postings (P.counted probe.new).postings }
{
    // What is asked of a view is known from here on: its documents' numbers ascend.
    let _live = probe.live();
    match query {
        Query::Bool { must, should, not } => {
            if is_negative(must, should, not) {
                let gone = united(alloc, parts(alloc, probe, not.as_slice())?)?;
                without(alloc, probe.live(), &gone)
            } else {
                nested(alloc, probe, query)
            }
        }
        _ => nested(alloc, probe, query),
    }
}

// Whether a Boolean query has prohibited parts alone.
pub(crate) fn is_negative(must: &Queries, should: &Queries, not: &Queries) -> bool
    ensures { result ≡ is_negative must.now should.now not.now }
{
    must.as_slice().is_empty() && should.as_slice().is_empty() && !not.as_slice().is_empty()
}

// What a query matches where it stands inside another.
#[cycle(evaluating)]
fn nested<P: Reads>(alloc: Global, probe: &mut P, query: &Query) -> Result<DocSet, NoMemory>
    requires { IsNumbered (P.view probe.old) }
    ensures found { IfOk result (λ s. s ≡ part query.now (P.view probe.old)) }
    ensures kept { Kept P.view P.terms P.counted probe.old probe.new }
    ensures asked { Asks (out-Query query.now) (P.counted probe.old).postings (P.counted probe.new).postings }
{
    match query {
        Query::All => copy_of(alloc, probe.live()),
        Query::Exists(field) => between(alloc, probe, *field, &End::Open, &End::Open),
        Query::Term(field, key) => term(alloc, probe, *field, key),
        Query::Words(field, words) => phrase(alloc, probe, *field, words.get()),
        Query::Prefix(field, text) => beginning(alloc, probe, *field, text),
        Query::Range(field, low, high) => between(alloc, probe, *field, low, high),
        Query::Bool { must, should, not } => {
            let found = if must.as_slice().is_empty() {
                united(alloc, parts(alloc, probe, should.as_slice())?)?
            } else {
                let all = parts(alloc, probe, must.as_slice())?;
                common(alloc, all.as_slice())?
            };
            let gone = united(alloc, parts(alloc, probe, not.as_slice())?)?;
            without(alloc, &found, &gone)
        }
    }
}

// What each of the queries matches.
#[cycle(evaluating)]
fn parts<P: Reads>(alloc: Global, probe: &mut P, queries: &[Query]) -> Result<Vec<DocSet>, NoMemory>
    requires { IsNumbered (P.view probe.old) }
    ensures found { IfOk result (λ v. v.items ≡ map (λ q. part q (P.view probe.old)) queries.now) }
    ensures kept { Kept P.view P.terms P.counted probe.old probe.new }
{
    let mut sets = Vec::with_capacity(alloc, queries.len())?;
    for query in queries {
        sets.push(nested(alloc, probe, query)?)?;
    }
    Ok(sets)
}
