ghost use Rattle.std.specs.Prelude.{◌≡◌, ◌∷◌, ◌++◌, [], OnOk, IfOk, codes, filter, string_bytes};
ghost use Rattle.std.specs.List.{list_any};
ghost use Rattle.std.specs.Str.{all_ascii_digits};
ghost use Rattle.field_schema.specs.Bytes.{bytes_eq};
ghost use Rattle.field_schema.specs.Outcome.{Gives};
ghost use Rattle.field_schema.specs.Tokens.{is_filled};
ghost use Rattle.request_form.specs.Requests.{is_no_memory};
ghost use Rattle.request_form.specs.Values.{count_in, count_of, fields_of, flag_in, flag_of, is_count, is_no, is_separator, is_yes, names_in, op_in, op_of, shown_by};

use crate::fault::{RequestFault, bad_count, bad_flag};
use crate::params::{Param, value_of};
use field_schema::{FieldList, NoMemory, Text, Texts};
use query_text::Op;
use std::alloc::Global;
use std::mem;

// The greatest count, and the most digits of one.
const MOST_COUNT: u32 = 2_147_483_647;

const MOST_DIGITS: usize = 10;

// The count that a parameter says, or what is meant where it is missing.
pub(crate) fn read_count(
    alloc: Global,
    params: &[Param],
    name: &str,
    missing: u32,
) -> Result<u32, RequestFault>
    ensures { Gives is_no_memory result (count_of name.now missing params.now) }
{
    let Some(value) = value_of(params, name) else {
        return Ok(missing);
    };
    match count_in(value) {
        Some(count) => Ok(count),
        None => bad_count(alloc, name),
    }
}

// The count that a text writes.
fn count_in(value: &str) -> Option<u32>
    ensures { result ≡ count_in value.now }
{
    if value.is_empty() || value.len() > MOST_DIGITS || !are_digits(value) {
        return None;
    }
    let count = value.parse::<u32>().ok()?;
    if count <= MOST_COUNT {
        Some(count)
    } else {
        None
    }
}

// Whether each byte is an ASCII digit.
fn are_digits(value: &str) -> bool
    ensures { result ≡ all_ascii_digits value.now }
{
    value.bytes().all(|byte| byte.is_ascii_digit())
}

// The flag that a parameter says, or what is meant where it is missing.
pub(crate) fn read_flag(
    alloc: Global,
    params: &[Param],
    name: &str,
    missing: bool,
) -> Result<bool, RequestFault>
    ensures { Gives is_no_memory result (flag_of name.now missing params.now) }
{
    let Some(value) = value_of(params, name) else {
        return Ok(missing);
    };
    match flag_in(value) {
        Some(flag) => Ok(flag),
        None => bad_flag(alloc, name),
    }
}

// The flag that a text writes.
fn flag_in(value: &str) -> Option<bool>
    ensures { result ≡ flag_in value.now }
{
    match value {
        "true" | "on" | "yes" => Some(true),
        "false" | "off" | "no" => Some(false),
        _ => None,
    }
}

// What joins clauses that have no conjunction.
pub(crate) fn read_op(alloc: Global, params: &[Param]) -> Result<Op, RequestFault>
    ensures { Gives is_no_memory result (op_of params.now) }
{
    let Some(value) = value_of(params, "q.op") else {
        return Ok(Op::Or);
    };
    match op_in(value) {
        Some(op) => Ok(op),
        None => bad_flag(alloc, "q.op"),
    }
}

// The operator that a text writes.
fn op_in(value: &str) -> Option<Op>
    ensures { result ≡ op_in value.now }
{
    match value {
        "OR" | "or" => Some(Op::Or),
        "AND" | "and" => Some(Op::And),
        _ => None,
    }
}

// The fields that a reply shows.
pub(crate) fn read_fields(alloc: Global, params: &[Param]) -> Result<FieldList, NoMemory>
    ensures { IfOk result (λ f. f ≡ fields_of params.now) }
{
    let mut names = Vec::new(alloc);
    for param in params {
        if param.has_name("fl") {
            add_names(alloc, &mut names, param.value.get())?;
        }
    }
    Ok(shown_by(Texts::new(names)))
}

// The fields that names stand for.
fn shown_by(names: Texts) -> FieldList
    ensures { result ≡ shown_by names }
{
    if names.get().is_empty() || has_star(names.get()) {
        FieldList::All
    } else {
        FieldList::Names(names)
    }
}

// Whether `*` is among names.
fn has_star(names: &[Text]) -> bool
    ensures { result ≡ list_any (λ name. bytes_eq name (codes "*")) names.now }
{
    names.iter().any(|name| name.get() == "*")
}

// Puts the names between commas and white space behind others.
fn add_names(alloc: Global, names: &mut Vec<Text>, value: &str) -> Result<(), NoMemory>
    ensures { OnOk result (names.new.items ≡ names.old.items ++ names_in value.now) }
{
    let mut name = String::new(alloc);
    for c in value.chars() {
        if is_separator(c) {
            let ended = mem::replace(&mut name, String::new(alloc));
            add_name(names, ended)?;
        } else {
            name.push(c)?;
        }
    }
    add_name(names, name)
}

// Puts a name that is not empty behind others.
fn add_name(names: &mut Vec<Text>, name: String) -> Result<(), NoMemory>
    ensures { OnOk result
        (names.new.items ≡ names.old.items ++ filter is_filled (string_bytes name ∷ [])) }
{
    if !name.is_empty() {
        names.push(Text::new(name))?;
    }
    Ok(())
}

// A comma or white space.
fn is_separator(c: char) -> bool
    ensures { result ≡ is_separator c }
{
    c == ',' || c == ' ' || c == '\t' || c == '\n' || c == '\r' || c == '\u{3000}'
}
