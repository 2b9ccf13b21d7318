// Query texts read to queries.
ghost use Rattle.std.specs.Prelude.{◌≡◌, ◌∷◌, IfOk, Ok, Err, MatchResult};
ghost use Rattle.field_schema.specs.Outcome.{Gives};
ghost use Rattle.query_text.specs.Readings.{words_of};
ghost use Rattle.query_text.specs.Faults.{least, told};
ghost use Rattle.query_text.specs.Reads.{Setting, is_no_memory, value, with_operator, sign_of, opened, closed, after, is_finish, query_of, letters_reading, reading};

use crate::clause::joined;
use crate::fault::first_told;
use crate::level::{Level, Levels, Sign, Target};
use crate::op::Op;
use crate::value::{indexed, kind_at, star, value_in, words_of};
use field_schema::{FieldNo, NoMemory, Schema, Texts};
use query_lexemes::{
    Letter, Lexeme, Local, Operator, QueryFault, What, behind_mark, letters, next_lexeme,
    read_local,
};
use query_tree::Query;
use std::alloc::Global;

/// A query text that was read.
#[derive(Debug, Drop)]
pub struct Parsed {
    /// The query.
    pub query: Query,
    /// Whether the caches may be used.
    pub cached: bool,
    /// When it is evaluated among filters that are not cached, the least first.
    pub cost: i32,
}

// A value in the field of the next value, given its tokens.
#[tactic(auto, unfolding(crate::specs::Reads::value))]
fn value(
    alloc: Global,
    schema: &Schema,
    op: Op,
    level: &Level,
    what: What,
    words: Texts,
) -> Result<Query, NoMemory>
    requires { words ≡ words_of schema.now.list level.now what }
    ensures { IfOk result (λ q.
        q ≡ value (record { fields = schema.now.list; op = op }) level.now what) }
{
    match level.field_for() {
        Some(field) => value_in(alloc, op, kind_at(schema, field), field, what, words),
        None => Ok(Query::All),
    }
}

// With a conjunction or `NOT` read.
fn with_operator(level: Level, operator: Operator) -> Level
    ensures { result ≡ with_operator level operator }
{
    match operator {
        Operator::And => Level {
            conj: Some(Op::And),
            ..level
        },
        Operator::Or => Level {
            conj: Some(Op::Or),
            ..level
        },
        Operator::Not => Level {
            sign: Some(Sign::Prohibited),
            ..level
        },
    }
}

fn sign_of(prohibits: bool) -> Sign
    ensures { result ≡ sign_of prohibits }
{
    if prohibits {
        Sign::Prohibited
    } else {
        Sign::Required
    }
}

// Behind `)`.
fn closed(alloc: Global, op: Op, level: Level, outer: Levels) -> Result<(Level, Levels), NoMemory>
    ensures { IfOk result (λ r. (r.0, r.1) ≡ closed op level outer) }
{
    let mut outer = outer;
    match outer.pop() {
        Some(outside) => {
            let query = joined(alloc, op, level.clauses)?;
            Ok((outside.put(query)?, outer))
        }
        None => Ok((level, outer)),
    }
}

// The query, and those outside it, behind a lexeme, given its tokens.
#[tactic(auto, unfolding(crate::specs::Reads::after))]
fn after(
    alloc: Global,
    schema: &Schema,
    op: Op,
    level: Level,
    outer: Levels,
    what: What,
    words: Texts,
) -> Result<(Level, Levels), NoMemory>
    requires { words ≡ words_of schema.now.list level what }
    ensures { IfOk result (λ r.
        (r.0, r.1) ≡ after (record { fields = schema.now.list; op = op }) level outer what) }
{
    match what {
        What::Word(_) | What::Prefix(_) | What::Quoted(_) | What::Range { .. } => {
            let query = value(alloc, schema, op, &level, what, words)?;
            Ok((level.put(query)?, outer))
        }
        What::Star => {
            let query = star(&level);
            Ok((level.put(query)?, outer))
        }
        What::Name { text, .. } => {
            let target = Target::To(indexed(schema, text.get()));
            Ok((Level { target, ..level }, outer))
        }
        What::Any { .. } => {
            let target = Target::Every;
            Ok((Level { target, ..level }, outer))
        }
        What::Operator { operator, .. } => Ok((with_operator(level, operator), outer)),
        What::Sign { prohibits } => {
            let sign = Some(sign_of(prohibits));
            Ok((Level { sign, ..level }, outer))
        }
        What::Opening => opened(alloc, level, outer),
        What::Closing => closed(alloc, op, level, outer),
        What::Finish | What::Begun { .. } | What::Half | What::Flaw => Ok((level, outer)),
    }
}

// Behind `(`.
fn opened(alloc: Global, level: Level, outer: Levels) -> Result<(Level, Levels), NoMemory>
    ensures { IfOk result (λ r. (r.0, r.1) ≡ opened level outer) }
{
    let mut outer = outer;
    let inside = level.inside(alloc);
    outer.push(level)?;
    Ok((inside, outer))
}

fn is_finish(what: &What) -> bool
    ensures { result ≡ is_finish what.now }
{
    match what {
        What::Finish => true,
        _ => false,
    }
}

// The query of letters.
#[tactic(auto, unfolding(crate::specs::Reads::query_of))]
fn query_of(
    alloc: Global,
    schema: &Schema,
    df: Option<FieldNo>,
    op: Op,
    most: u32,
    end: usize,
    letters: &[Letter],
) -> Result<Query, QueryFault>
    ensures { Gives is_no_memory result
        (query_of (record { fields = schema.now.list; op = op }) most df end letters.now) }
{
    let mut level = Level::top(alloc, df);
    let mut outer = Levels::new(alloc);
    let mut rest = letters;
    for turn in 0..letters.len() + 1 {
        let (x, behind) = match next_lexeme(alloc, end, rest) {
            Ok(read) => read,
            Err(NoMemory) => return Err(QueryFault::NoMemory),
        };
        let words = words_of(alloc, schema, &level, &x.what)?;
        if let Some(fault) = first_told(schema, most, &level, &outer, &x, &words) {
            return Err(fault);
        }
        if is_finish(&x.what) {
            return Ok(joined(alloc, op, level.clauses)?);
        }
        let (inner, others) = after(alloc, schema, op, level, outer, x.what, words)?;
        level = inner;
        outer = others;
        rest = behind;
    }
    Ok(joined(alloc, op, level.clauses)?)
}

// The query with what local parameters say of it.
fn with_local(local: Local, query: Query) -> Parsed
    ensures { result ≡ record { query = query; cached = local.cached; cost = local.cost } }
{
    Parsed {
        query,
        cached: local.cached,
        cost: local.cost,
    }
}

// What letters read to.
#[tactic(auto, unfolding(crate::specs::Reads::letters_reading))]
fn read_letters(
    alloc: Global,
    schema: &Schema,
    df: Option<FieldNo>,
    op: Op,
    most: u32,
    end: usize,
    letters: &[Letter],
) -> Result<Parsed, QueryFault>
    ensures { Gives is_no_memory result
        (letters_reading (record { fields = schema.now.list; op = op }) most df end letters.now) }
{
    let Some(params) = behind_mark(letters) else {
        let query = query_of(alloc, schema, df, op, most, end, letters)?;
        return Ok(with_local(
            Local {
                cached: true,
                cost: 0,
            },
            query,
        ));
    };
    match read_local(alloc, end, params)? {
        Ok((local, rest)) => {
            let query = query_of(alloc, schema, df, op, most, end, rest)?;
            Ok(with_local(local, query))
        }
        Err(at) => Err(QueryFault::BadLocal { at }),
    }
}

/// The query of a text of the standard query parser, with what its local parameters say.
///
/// Values without a field of their own are of the field `df`, where there is one. `op` joins clauses
/// without a conjunction. A query, or one in parentheses, has at most `most` clauses.
///
/// The fault that counts is the one with the least place in the text, and at one place the first of
/// the variants. `NoMemory` comes only where memory is wanting. It costs the text's length, and it
/// uses no stack for what is nested.
pub fn parse(
    alloc: Global,
    schema: &Schema,
    df: Option<FieldNo>,
    op: Op,
    most: u32,
    text: &str,
) -> Result<Parsed, QueryFault>
    ensures { Gives is_no_memory result (reading schema.now.list df op most text.now) }
{
    let letters = letters(alloc, text)?;
    read_letters(alloc, schema, df, op, most, text.len(), letters.as_slice())
}
