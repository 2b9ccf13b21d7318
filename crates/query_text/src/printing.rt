// The text of a query.
ghost use Rattle.std.specs.Prelude.{◌≡◌, ◌++◌, [], if◌then◌else◌, IfOk, OnOk, IsSome, IsTrue, codes, map, slice_get, string_bytes};
ghost use Rattle.std.specs.List.{flat_map};
ghost use Rattle.std.specs.Str.{chars};
ghost use Rattle.query_text.specs.Printing.{named, quoted_char, in_quotes, is_plain, escaped_char, is_operator, escaped, key_text, spaced, end_text, opening, closing, range_text, signed, is_begun, parts_text, part_text, printed};

use field_schema::{FieldNo, Key, NoMemory, Schema, Text, truth_text};
use query_tree::{End, Query};
use std::alloc::Global;

fn write(out: &mut String, text: &str) -> Result<(), NoMemory>
    ensures { OnOk result (string_bytes out.new ≡ string_bytes out.old ++ text.now) }
{
    out.push_str(text)?;
    Ok(())
}

// A field's name and a colon.
fn write_name(out: &mut String, schema: &Schema, field: FieldNo) -> Result<(), NoMemory>
    ensures { OnOk result (string_bytes out.new
        ≡ string_bytes out.old ++ named schema.now.list field) }
{
    if let Some(field) = schema.get(field) {
        write(out, field.name.get())?;
    }
    write(out, ":")
}

// A character inside quotes.
fn write_quoted_char(out: &mut String, c: char) -> Result<(), NoMemory>
    ensures { OnOk result (string_bytes out.new ≡ string_bytes out.old ++ quoted_char c) }
{
    if c == '"' || c == '\\' {
        out.push('\\')?;
    }
    out.push(c)?;
    Ok(())
}

// The characters of a text inside quotes.
fn write_quoted(out: &mut String, text: &str) -> Result<(), NoMemory>
    ensures { OnOk result (string_bytes out.new
        ≡ string_bytes out.old ++ flat_map quoted_char (chars text.now)) }
{
    for c in text.chars() {
        write_quoted_char(out, c)?;
    }
    Ok(())
}

// A text in quotes.
#[tactic(auto, unfolding(crate::specs::Printing::in_quotes))]
fn write_in_quotes(out: &mut String, text: &str) -> Result<(), NoMemory>
    ensures { OnOk result (string_bytes out.new ≡ string_bytes out.old ++ in_quotes text.now) }
{
    write(out, "\"")?;
    write_quoted(out, text)?;
    write(out, "\"")
}

// Whether it needs no `\` in the text of a prefix.
fn is_plain(c: char) -> bool
    ensures { result ≡ is_plain c }
{
    c.is_ascii_alphanumeric() || (!c.is_ascii() && c != '\u{3000}')
}

fn write_escaped_char(out: &mut String, c: char) -> Result<(), NoMemory>
    ensures { OnOk result (string_bytes out.new ≡ string_bytes out.old ++ escaped_char c) }
{
    if !is_plain(c) {
        out.push('\\')?;
    }
    out.push(c)?;
    Ok(())
}

fn is_operator(text: &str) -> bool
    ensures { result ≡ is_operator text.now }
{
    text == "AND" || text == "OR" || text == "NOT"
}

fn write_escapes(out: &mut String, text: &str) -> Result<(), NoMemory>
    ensures { OnOk result (string_bytes out.new
        ≡ string_bytes out.old ++ flat_map escaped_char (chars text.now)) }
{
    for c in text.chars() {
        write_escaped_char(out, c)?;
    }
    Ok(())
}

// The text of a prefix.
#[tactic(auto, unfolding(crate::specs::Printing::escaped))]
fn write_escaped(out: &mut String, text: &str) -> Result<(), NoMemory>
    ensures { OnOk result (string_bytes out.new ≡ string_bytes out.old ++ escaped text.now) }
{
    if is_operator(text) {
        write(out, "\\")?;
    }
    write_escapes(out, text)
}

// A key in quotes.
fn write_key(alloc: Global, out: &mut String, key: &Key) -> Result<(), NoMemory>
    ensures { OnOk result (string_bytes out.new
        ≡ string_bytes out.old ++ in_quotes (key_text key.now)) }
{
    match key {
        Key::Str(text) | Key::Token(text) => write_in_quotes(out, text.get()),
        Key::Long(number) => {
            let digits = number.to_string(alloc)?;
            write_in_quotes(out, digits.as_str())
        }
        Key::Bool(truth) => write_in_quotes(out, truth_text(*truth)),
    }
}

// Words with one space between them.
#[tactic(auto, unfolding(crate::specs::Printing::signed))]
fn joined_words(alloc: Global, words: &[Text]) -> Result<String, NoMemory>
    ensures { IfOk result (λ t. string_bytes t ≡ spaced words.now) }
{
    let mut text = String::new(alloc);
    let mut begun = false;
    for word in words {
        write_space(&mut text, begun)?;
        write(&mut text, word.get())?;
        begun = true;
    }
    Ok(text)
}

fn write_end(alloc: Global, out: &mut String, end: &End) -> Result<(), NoMemory>
    ensures { OnOk result (string_bytes out.new ≡ string_bytes out.old ++ end_text end.now) }
{
    match end {
        End::Open => write(out, "*"),
        End::At { key, .. } => write_key(alloc, out, key),
    }
}

fn opening(end: &End) -> &'static str
    ensures { result.now ≡ opening end.now }
{
    match end {
        End::At {
            inclusive: false,
            ..
        } => "{",
        _ => "[",
    }
}

fn closing(end: &End) -> &'static str
    ensures { result.now ≡ closing end.now }
{
    match end {
        End::At {
            inclusive: false,
            ..
        } => "}",
        _ => "]",
    }
}

// A range.
fn write_range(alloc: Global, out: &mut String, low: &End, high: &End) -> Result<(), NoMemory>
    ensures { OnOk result (string_bytes out.new
        ≡ string_bytes out.old ++ range_text low.now high.now) }
{
    write(out, opening(low))?;
    write_end(alloc, out, low)?;
    write(out, " TO ")?;
    write_end(alloc, out, high)?;
    write(out, closing(high))
}

// A space, where something stands before.
fn write_space(out: &mut String, begun: bool) -> Result<(), NoMemory>
    ensures { OnOk result (string_bytes out.new
        ≡ string_bytes out.old ++ (if begun then codes " " else [])) }
{
    if begun {
        write(out, " ")?;
    }
    Ok(())
}

// The text of a query that stands inside another.
#[cycle(printing)]
#[tactic(auto, unfolding(crate::specs::Printing::parts_text))]
fn write_part(
    alloc: Global,
    out: &mut String,
    schema: &Schema,
    query: &Query,
) -> Result<(), NoMemory>
    ensures { OnOk result (string_bytes out.new
        ≡ string_bytes out.old ++ part_text schema.now.list query.now) }
{
    match query {
        Query::All => write(out, "*:*"),
        Query::Exists(field) => {
            write_name(out, schema, *field)?;
            write(out, "*")
        }
        Query::Term(field, key) => {
            write_name(out, schema, *field)?;
            write_key(alloc, out, key)
        }
        Query::Words(field, words) => {
            write_name(out, schema, *field)?;
            let text = joined_words(alloc, words.get())?;
            write_in_quotes(out, text.as_str())
        }
        Query::Prefix(field, text) => {
            write_name(out, schema, *field)?;
            write_escaped(out, text.get())?;
            write(out, "*")
        }
        Query::Range(field, low, high) => {
            write_name(out, schema, *field)?;
            write_range(alloc, out, low, high)
        }
        Query::Bool { must, should, not } => {
            let (second, third) = (!must.is_empty(), !must.is_empty() || !should.is_empty());
            write(out, "(")?;
            write_signed(alloc, out, schema, false, "+", must.as_slice())?;
            write_signed(alloc, out, schema, second, "", should.as_slice())?;
            write_signed(alloc, out, schema, third, "-", not.as_slice())?;
            write(out, ")")
        }
    }
}

// The parts of a Boolean query.
#[tactic(auto, unfolding(crate::specs::Printing::parts_text))]
fn write_parts(
    alloc: Global,
    out: &mut String,
    schema: &Schema,
    must: &[Query],
    should: &[Query],
    not: &[Query],
) -> Result<(), NoMemory>
    ensures { OnOk result (string_bytes out.new ≡ string_bytes out.old
        ++ parts_text (map (part_text schema.now.list) must.now)
        (map (part_text schema.now.list) should.now) (map (part_text schema.now.list) not.now)) }
{
    write_signed(alloc, out, schema, false, "+", must)?;
    write_signed(alloc, out, schema, !must.is_empty(), "", should)?;
    write_signed(
        alloc,
        out,
        schema,
        !must.is_empty() || !should.is_empty(),
        "-",
        not,
    )
}

// Queries with a sign before each, and a space before each that is not the first of all.
#[cycle(printing)]
#[tactic(auto, unfolding(crate::specs::Printing::signed))]
fn write_signed(
    alloc: Global,
    out: &mut String,
    schema: &Schema,
    begun: bool,
    sign: &str,
    queries: &[Query],
) -> Result<(), NoMemory>
    ensures { OnOk result (string_bytes out.new ≡ string_bytes out.old
        ++ signed begun sign.now (map (part_text schema.now.list) queries.now)) }
{
    let mut begun = begun;
    for query in queries {
        write_space(out, begun)?;
        write(out, sign)?;
        write_part(alloc, out, schema, query)?;
        begun = true;
    }
    Ok(())
}

/// The text of a query. Where `parse` gave the query, with any operator and an indexed default field or none, it
/// gives it again for this text with `Or` and any default field, under the same limit on clauses: that is
/// `laws::printed_reads_back`.
///
/// It costs the text's length, and three stack frames a level; parsed queries are at most 65
/// levels deep.
pub fn print(alloc: Global, schema: &Schema, query: &Query) -> Result<Text, NoMemory>
    ensures { IfOk result (λ t. t ≡ printed schema.now.list query.now) }
{
    let mut out = String::new(alloc);
    match query {
        Query::Bool { must, should, not } => {
            write_parts(
                alloc,
                &mut out,
                schema,
                must.as_slice(),
                should.as_slice(),
                not.as_slice(),
            )?;
        }
        _ => write_part(alloc, &mut out, schema, query)?,
    }
    Ok(Text::new(out))
}
