//! Query texts and sort texts, and their lexemes.
use crate::desk::{Row, first_word};
use crate::marks::text_of;
use field_schema::Schema;
use query_lexemes::{behind_mark, letters, next_lexeme, plain_letters, read_local, sort_item};
use query_text::{Op, QueryFault, SortFault, parse, print, read_sort};
use query_tree::{Sort, SortBy};
use std::alloc::Global;
use std::test::Fail;

// What a row of these kinds is answered.
pub(crate) fn tell(alloc: Global, schema: &Schema, row: Row<'_>) -> Result<Option<String>, Fail> {
    Ok(Some(match row.kind.as_bytes() {
        b"lexemes" => tell_lexemes(alloc, row.text)?,
        b"local" => tell_local(alloc, row.text)?,
        b"item" => tell_item(alloc, row.text)?,
        b"parse" => {
            let text = text_of(alloc, row.text)?;
            tell_parsed(alloc, schema, row.words, text.as_str())?
        }
        b"sort" => match read_sort(alloc, schema, row.text) {
            Ok(sort) => sort_text(alloc, &sort)?,
            Err(fault) => sort_fault(alloc, &fault)?,
        },
        _ => return Ok(None),
    }))
}

// The places and the lexemes of a text.
fn tell_lexemes(alloc: Global, text: &str) -> Result<String, Fail> {
    let letters = letters(alloc, text)?;
    let mut rest = letters.as_slice();
    let mut told = String::new(alloc);
    for _ in 0..20 {
        let (lexeme, behind) = match next_lexeme(alloc, text.len(), rest) {
            Ok(read) => read,
            Err(_) => return Err(Fail::new("no memory")),
        };
        let (at, what) = (lexeme.at, lexeme.what);
        told.push_str(format!(in alloc; "{at} {what:?}; ")?.as_str())?;
        if behind.is_empty() && at == text.len() {
            break;
        }
        rest = behind;
    }
    Ok(String::from_str(alloc, told.as_str().trim_end())?)
}

// The cost of local parameters, whether they cache, and how many letters stand behind them; or the place of the fault.
fn tell_local(alloc: Global, text: &str) -> Result<String, Fail> {
    let letters = letters(alloc, text)?;
    let params = behind_mark(letters.as_slice()).ok_or("no parameters")?;
    match read_local(alloc, text.len(), params)? {
        Ok((local, rest)) => {
            let (cost, cached, behind) = (local.cost, local.cached, rest.len());
            Ok(format!(in alloc; "{cost} {cached} {behind}")?)
        }
        Err(at) => Ok(format!(in alloc; "at {at}")?),
    }
}

// The name of a sort's first item, its way, whether more follow, and how many letters stand behind it.
fn tell_item(alloc: Global, text: &str) -> Result<String, Fail> {
    let letters = plain_letters(alloc, text)?;
    let (item, rest) = sort_item(alloc, text.len(), letters.as_slice())?;
    let (name, way, more) = (item.name.get(), item.way, item.more);
    let behind = rest.len();
    Ok(format!(in alloc; "{name} {way:?} {more} {behind}")?)
}

// What a text reads to, printed, or its fault; and whether the printed text reads to another query. The words are the
// default field, the operator's letter and the most clauses.
fn tell_parsed(alloc: Global, schema: &Schema, words: &str, text: &str) -> Result<String, Fail> {
    let (df, others) = first_word(words);
    let (op, most) = first_word(others);
    let df = schema.field(df);
    let op = if op == "A" { Op::And } else { Op::Or };
    let most = most.parse::<u32>()?;
    let parsed = match parse(alloc, schema, df, op, most, text) {
        Ok(parsed) => parsed,
        Err(fault) => return query_fault(alloc, &fault),
    };
    let shown = print(alloc, schema, &parsed.query)?;
    let mut told = String::from_str(alloc, shown.get())?;
    let (cached, cost) = (parsed.cached, parsed.cost);
    if !cached || cost != 0 {
        told.push_str(format!(in alloc; " | {cached} {cost}")?.as_str())?;
    }
    if parse(alloc, schema, df, Op::Or, most, shown.get())?.query != parsed.query {
        told.push_str(", which reads to another")?;
    }
    Ok(told)
}

// The fault's name and place.
pub(crate) fn query_fault(alloc: Global, fault: &QueryFault) -> Result<String, Fail> {
    let (name, at) = match fault {
        QueryFault::Syntax { at } => ("Syntax", *at),
        QueryFault::UnknownField { at } => ("UnknownField", *at),
        QueryFault::BadNumber { at } => ("BadNumber", *at),
        QueryFault::Unsupported { at } => ("Unsupported", *at),
        QueryFault::BadLocal { at } => ("BadLocal", *at),
        QueryFault::TooDeep { at } => ("TooDeep", *at),
        QueryFault::TooManyClauses { at } => ("TooManyClauses", *at),
        QueryFault::NoMemory => ("NoMemory", 0),
    };
    Ok(format!(in alloc; "{name} {at}")?)
}

// The same for a sort.
pub(crate) fn sort_fault(alloc: Global, fault: &SortFault) -> Result<String, Fail> {
    let (name, at) = match fault {
        SortFault::BadSort { at } => ("BadSort", *at),
        SortFault::UnknownField { at } => ("UnknownField", *at),
        SortFault::NotSortable { at } => ("NotSortable", *at),
        SortFault::NoMemory => ("NoMemory", 0),
    };
    Ok(format!(in alloc; "{name} {at}")?)
}

// The keys of a sort, each with its way.
pub(crate) fn sort_text(alloc: Global, sort: &Sort) -> Result<String, Fail> {
    let mut told = String::new(alloc);
    for key in sort.get() {
        if !told.is_empty() {
            told.push_str(" ")?;
        }
        match key.by {
            SortBy::Field(field) => told.push_str(format!(in alloc; "{field}")?.as_str())?,
            SortBy::DocId => told.push_str("index")?,
        }
        told.push_str(if key.down { " down" } else { " up" })?;
    }
    Ok(told)
}
