// The faults of a lexeme behind what was read.
ghost use Rattle.std.specs.Prelude.{◌≡◌, None, if◌then◌else◌, option_map, option_copied};
ghost use Rattle.query_lexemes.specs.declared.fault.QueryFault.TheVariants as fault;
ghost use Rattle.query_text.specs.Faults.{fault_place, fault_number, counts_before, earlier, least, fault_if, operator_fits, syntax, needs_field, is_unknown, unknown_field, is_long, is_no_number, bad_number, from_of, to_of, bad_bound, is_whole, is_prefix, unsupported, is_opening, is_several, too_deep, begins_clause, too_many, told_with};

use crate::level::{Level, Levels};
use crate::value::{indexed, kind_for, value_text, word_text};
use field_schema::{FieldType, Schema, Text, Texts, long_text};
use query_lexemes::{Bound, Lexeme, Operator, QueryFault, What};

// The most pairs of parentheses round a query.
const MOST_DEEP: usize = 64;

// Its place in the text.
fn fault_place(fault: QueryFault) -> usize
    ensures { result ≡ fault_place fault }
{
    match fault {
        QueryFault::Syntax { at }
        | QueryFault::UnknownField { at }
        | QueryFault::BadNumber { at }
        | QueryFault::Unsupported { at }
        | QueryFault::BadLocal { at }
        | QueryFault::TooDeep { at }
        | QueryFault::TooManyClauses { at } => at,
        QueryFault::NoMemory => 0,
    }
}

// Its place among the faults.
fn fault_number(fault: QueryFault) -> u8
    ensures { result ≡ fault_number fault }
{
    match fault {
        QueryFault::Syntax { .. } => 1,
        QueryFault::UnknownField { .. } => 2,
        QueryFault::BadNumber { .. } => 3,
        QueryFault::Unsupported { .. } => 4,
        QueryFault::BadLocal { .. } => 5,
        QueryFault::TooDeep { .. } => 6,
        QueryFault::TooManyClauses { .. } => 7,
        QueryFault::NoMemory => 8,
    }
}

// Whether a fault counts before another.
fn counts_before(fault: QueryFault, other: QueryFault) -> bool
    ensures { result ≡ counts_before fault other }
{
    fault_place(fault) < fault_place(other)
        || (fault_place(fault) == fault_place(other) && fault_number(fault) < fault_number(other))
}

// The one that counts of two faults.
fn earlier(fault: Option<QueryFault>, other: Option<QueryFault>) -> Option<QueryFault>
    ensures { result ≡ earlier fault other }
{
    match (fault, other) {
        (None, other) => other,
        (Some(fault), None) => Some(fault),
        (Some(fault), Some(other)) => {
            if counts_before(other, fault) {
                Some(other)
            } else {
                Some(fault)
            }
        }
    }
}

fn fault_if(holds: bool, fault: QueryFault) -> Option<QueryFault>
    ensures { result ≡ fault_if holds fault }
{
    if holds { Some(fault) } else { None }
}

// Whether an operator can stand here.
fn operator_fits(operator: Operator, level: &Level) -> bool
    ensures { result ≡ operator_fits operator level.now }
{
    match operator {
        Operator::And | Operator::Or => level.joins(),
        Operator::Not => level.begins(),
    }
}

// A lexeme that can't stand here.
#[tactic(auto, unfolding(crate::specs::Faults::syntax))]
fn syntax(level: &Level, outer: &Levels, at: usize, what: &What) -> Option<QueryFault>
    ensures { result ≡ syntax level.now outer.now at what.now }
{
    let here = QueryFault::Syntax { at };
    match what {
        What::Name { colon, .. } | What::Any { colon, .. } => {
            fault_if(!level.is_here(), QueryFault::Syntax { at: *colon })
        }
        What::Operator { operator, behind } => misplaced(operator_fits(*operator, level), *behind),
        What::Sign { .. } => fault_if(!level.begins(), here),
        What::Closing => fault_if(outer.len() == 0 || !level.joins(), here),
        What::Finish => fault_if(!(outer.len() == 0 && level.is_between()), here),
        _ => None,
    }
}

// An operator that can't stand.
fn misplaced(fits: bool, behind: Option<usize>) -> Option<QueryFault>
    ensures { result ≡ (if fits then None else option_map fault.Syntax behind) }
{
    match behind {
        Some(at) if !fits => Some(QueryFault::Syntax { at }),
        _ => None,
    }
}

// Whether a value needs a field.
fn needs_field(level: &Level, what: &What) -> bool
    ensures { result ≡ needs_field level.now what.now }
{
    match what {
        What::Word(_)
        | What::Prefix(_)
        | What::Quoted(_)
        | What::Range { .. }
        | What::Begun { .. } => true,
        What::Name { .. } => !level.is_here(),
        _ => false,
    }
}

// Whether it is a field that no indexed field is.
fn is_unknown(schema: &Schema, level: &Level, what: &What) -> bool
    ensures { result ≡ is_unknown schema.now.list level.now what.now }
{
    match what {
        What::Name { text, .. } => level.is_here() && indexed(schema, text.get()).is_none(),
        What::Any { other, .. } => level.is_here() && *other,
        _ => false,
    }
}

#[tactic(auto, unfolding(crate::specs::Faults::unknown_field))]
fn unknown_field(schema: &Schema, level: &Level, at: usize, what: &What) -> Option<QueryFault>
    ensures { result ≡ unknown_field schema.now.list level.now at what.now }
{
    let unknown = is_unknown(schema, level, what)
        || (needs_field(level, what) && level.field_for().is_none());
    fault_if(unknown, QueryFault::UnknownField { at })
}

fn is_long(kind: Option<FieldType>) -> bool
    ensures { result ≡ is_long kind }
{
    match kind {
        Some(FieldType::Long) => true,
        _ => false,
    }
}

// Whether a text is there and is no number.
fn is_no_number(text: Option<&Text>) -> bool
    ensures { result ≡ is_no_number (option_copied text.entry) }
{
    match text {
        Some(text) => long_text(text.get()).is_none(),
        None => false,
    }
}

// A word or a quoted text that should be a number.
#[tactic(auto, unfolding(crate::specs::Faults::bad_number))]
fn bad_number(kind: Option<FieldType>, level: &Level, at: usize, what: &What) -> Option<QueryFault>
    ensures { result ≡ bad_number kind level.now at what.now }
{
    let bad = is_long(kind) && is_no_number(value_text(level, what));
    fault_if(bad, QueryFault::BadNumber { at })
}

// The lower end of a range, where it is whole.
fn from_of(what: &What) -> Option<&Bound>
    ensures { option_copied result ≡ from_of what.now }
{
    match what {
        What::Range { from, .. } => Some(from),
        What::Begun { from, .. } => from.as_ref(),
        _ => None,
    }
}

// The upper end of a range, where it is whole.
fn to_of(what: &What) -> Option<&Bound>
    ensures { option_copied result ≡ to_of what.now }
{
    match what {
        What::Range { to, .. } => Some(to),
        What::Begun { to, .. } => to.as_ref(),
        _ => None,
    }
}

// An end of a range that should be a number.
#[tactic(auto, unfolding(crate::specs::Faults::bad_bound))]
fn bad_bound(kind: Option<FieldType>, bound: Option<&Bound>) -> Option<QueryFault>
    ensures { result ≡ bad_bound kind (option_copied bound.entry) }
{
    match bound {
        Some(bound) => {
            let bad = is_long(kind) && is_no_number(bound.text.as_ref());
            fault_if(bad, QueryFault::BadNumber { at: bound.at })
        }
        None => None,
    }
}

// Whether values of the type have no prefixes.
fn is_whole(kind: Option<FieldType>) -> bool
    ensures { result ≡ is_whole kind }
{
    match kind {
        Some(FieldType::Long) | Some(FieldType::Bool) => true,
        _ => false,
    }
}

fn is_prefix(what: &What) -> bool
    ensures { result ≡ is_prefix what.now }
{
    match what {
        What::Prefix(_) => true,
        _ => false,
    }
}

#[tactic(auto, unfolding(crate::specs::Faults::unsupported))]
fn unsupported(kind: Option<FieldType>, at: usize, what: &What) -> Option<QueryFault>
    ensures { result ≡ unsupported kind at what.now }
{
    fault_if(
        is_prefix(what) && is_whole(kind),
        QueryFault::Unsupported { at },
    )
}

fn is_opening(what: &What) -> bool
    ensures { result ≡ is_opening what.now }
{
    match what {
        What::Opening => true,
        _ => false,
    }
}

// Whether it is a word of several tokens.
fn is_several(level: &Level, what: &What, words: &Texts) -> bool
    ensures { result ≡ is_several level.now what.now words.now }
{
    word_text(level, what).is_some() && words.get().len() > 1
}

#[tactic(auto, unfolding(crate::specs::Faults::too_deep))]
fn too_deep(
    level: &Level,
    outer: &Levels,
    at: usize,
    what: &What,
    words: &Texts,
) -> Option<QueryFault>
    ensures { result ≡ too_deep level.now outer.now at what.now words.now }
{
    let deep = outer.len() >= MOST_DEEP && (is_opening(what) || is_several(level, what, words));
    fault_if(deep, QueryFault::TooDeep { at })
}

// Whether it is the first of a clause: a modifier, or a body, whole or not.
fn begins_clause(what: &What) -> bool
    ensures { result ≡ begins_clause what.now }
{
    match what {
        What::Operator {
            operator: Operator::And | Operator::Or,
            ..
        } => false,
        What::Closing | What::Finish | What::Flaw => false,
        _ => true,
    }
}

#[tactic(auto, unfolding(crate::specs::Faults::too_many))]
fn too_many(most: u32, level: &Level, at: usize, what: &What, words: &Texts) -> Option<QueryFault>
    ensures { result ≡ too_many most level.now at what.now words.now }
{
    let full = begins_clause(what) && level.begins() && level.clauses.len() >= most as usize;
    let long = is_several(level, what, words) && words.get().len() > most as usize;
    fault_if(full || long, QueryFault::TooManyClauses { at })
}

// The fault of a lexeme, given the tokens that it has.
#[tactic(auto, unfolding(crate::specs::Faults::told_with, crate::specs::Faults::least))]
pub(crate) fn first_told(
    schema: &Schema,
    most: u32,
    level: &Level,
    outer: &Levels,
    x: &Lexeme,
    words: &Texts,
) -> Option<QueryFault>
    ensures { result ≡ least (told_with schema.now.list most level.now outer.now x.now words.now) }
{
    let kind = kind_for(schema, level);
    let first = earlier(too_many(most, level, x.at, &x.what, words), None);
    let first = earlier(too_deep(level, outer, x.at, &x.what, words), first);
    let first = earlier(unsupported(kind, x.at, &x.what), first);
    let first = earlier(bad_bound(kind, to_of(&x.what)), first);
    let first = earlier(bad_bound(kind, from_of(&x.what)), first);
    let first = earlier(bad_number(kind, level, x.at, &x.what), first);
    let first = earlier(unknown_field(schema, level, x.at, &x.what), first);
    let first = earlier(syntax(level, outer, x.at, &x.what), first);
    earlier(x.wrong, first)
}
