// The query of a list of clauses.
ghost use Rattle.std.specs.Prelude.{◌≡◌, ◌∷◌, ◌++◌, [], IfOk, OnOk};
ghost use Rattle.query_text.specs.declared.clause.Mark.TheVariants as as_;
ghost use Rattle.query_text.specs.Clauses.{mark as mark_by_rule, kept, sorted, joined};

use crate::level::{Clause, Clauses, Sign};
use crate::op::Op;
use field_schema::NoMemory;
use query_tree::{Queries, Query};
use std::alloc::Global;

/// Which list of a Boolean query a clause stands in.
#[derive(Clone, Copy, Debug, PartialEq, Eq)]
pub(crate) enum Mark {
    Must,
    Should,
    Not,
}

// How a clause counts, with the conjunctions before and behind it.
fn mark_of(op: Op, before: Option<Op>, sign: Option<Sign>, behind: Option<Op>) -> Mark
    ensures { result ≡ mark_by_rule op before sign behind }
{
    match (sign, behind, op, before) {
        (Some(Sign::Prohibited), _, _, _) => Mark::Not,
        (_, Some(Op::And), _, _) => Mark::Must,
        (_, Some(Op::Or), Op::And, _) => Mark::Should,
        (_, _, Op::And, Some(Op::Or)) => Mark::Should,
        (_, _, Op::And, _) => Mark::Must,
        (Some(Sign::Required), _, Op::Or, _) => Mark::Must,
        (_, _, Op::Or, Some(Op::And)) => Mark::Must,
        _ => Mark::Should,
    }
}

// The query of clauses.
#[tactic(auto, unfolding(crate::specs::Clauses::joined))]
pub(crate) fn joined(alloc: Global, op: Op, clauses: Clauses) -> Result<Query, NoMemory>
    ensures { IfOk result (λ q. q ≡ joined op clauses) }
{
    let mut clauses = clauses;
    if clauses.len() == 1 {
        match clauses.pop() {
            Some(clause) => return single(alloc, op, clause),
            None => {}
        }
    }
    sorted(alloc, op, clauses)
}

// The query of one clause.
#[tactic(auto, unfolding(crate::specs::Clauses::joined))]
fn single(alloc: Global, op: Op, clause: Clause) -> Result<Query, NoMemory>
    ensures { IfOk result (λ q. q ≡ joined op (clause ∷ [])) }
{
    if clause.sign.is_none() {
        return Ok(clause.query);
    }
    let mut clauses = Clauses::new(alloc);
    clauses.push(clause)?;
    sorted(alloc, op, clauses)
}

// Puts a query behind the others of its mark.
fn add(
    mark: Mark,
    query: Query,
    must: &mut Vec<Query>,
    should: &mut Vec<Query>,
    not: &mut Vec<Query>,
) -> Result<(), NoMemory>
    ensures must { OnOk result (must.new.items ≡ must.old.items ++ kept as_.Must mark query) }
    ensures should { OnOk result (should.new.items
        ≡ should.old.items ++ kept as_.Should mark query) }
    ensures not { OnOk result (not.new.items ≡ not.old.items ++ kept as_.Not mark query) }
{
    match mark {
        Mark::Must => must.push(query)?,
        Mark::Should => should.push(query)?,
        Mark::Not => not.push(query)?,
    }
    Ok(())
}

// A Boolean query of clauses, which are taken from the last to the first.
#[tactic(auto, unfolding(crate::specs::Clauses::sorted))]
fn sorted(alloc: Global, op: Op, clauses: Clauses) -> Result<Query, NoMemory>
    ensures { IfOk result (λ q. q ≡ sorted op clauses) }
{
    let mut clauses = clauses;
    let mut must = Vec::new(alloc);
    let mut should = Vec::new(alloc);
    let mut not = Vec::new(alloc);
    let mut behind = None;
    while let Some(clause) = clauses.pop() {
        let mark = mark_of(op, clause.before, clause.sign, behind);
        add(mark, clause.query, &mut must, &mut should, &mut not)?;
        behind = clause.before;
    }
    must.reverse();
    should.reverse();
    not.reverse();
    Ok(Query::Bool {
        must: Queries::from_vec(must),
        should: Queries::from_vec(should),
        not: Queries::from_vec(not),
    })
}
