ghost use Rattle.std.specs.Prelude.{◌≡◌, IfOk, OnOk, Some, string_bytes};
ghost use Rattle.std.specs.Option.{option_map};
ghost use Rattle.run_laws.specs.OutputText.{output_text as text_of_output};
ghost use Rattle.client_runner.specs.OutputPieces.{Grows, end_piece, from_piece, lines_of, number_piece, optional_piece, request_line, searcher_line};
ghost use Rattle.client_runner.specs.Outputs.{output_view};
ghost use Rattle.client_runner.specs.Views.{request_view, searcher_view};

use crate::rows::{Output, RequestRow, SearcherRow};
use field_schema::{NoMemory, Text};
use script_form::Config;
use std::alloc::Global;

// Writes a piece.
pub(crate) fn put_text(out: &mut String, piece: &str) -> Result<(), NoMemory>
    ensures { OnOk result (Grows (string_bytes out.old) (string_bytes out.new) piece.now) }
{
    out.push_str(piece)?;
    Ok(())
}

// Writes a reply.
fn put_reply(out: &mut String, reply: &Text) -> Result<(), NoMemory>
    ensures { OnOk result (Grows (string_bytes out.old) (string_bytes out.new) reply.now) }
{
    put_text(out, reply.get())
}

// Writes a piece and a number behind it.
pub(crate) fn put_number(out: &mut String, piece: &str, number: u64) -> Result<(), NoMemory>
    ensures { OnOk result (Grows (string_bytes out.old) (string_bytes out.new) (number_piece piece.now number)) }
{
    write!(out, "{piece}{number}")?;
    Ok(())
}

// The same of a smaller number.
fn put_small(out: &mut String, piece: &str, number: u32) -> Result<(), NoMemory>
    ensures { OnOk result (Grows (string_bytes out.old) (string_bytes out.new) (number_piece piece.now number)) }
{
    put_number(out, piece, u64::from(number))
}

// Writes a piece and a place behind it, where there is one.
fn put_place(out: &mut String, piece: &str, place: Option<u64>) -> Result<(), NoMemory>
    ensures { OnOk result (Grows (string_bytes out.old) (string_bytes out.new) (optional_piece piece.now place)) }
{
    match place {
        Some(place) => put_number(out, piece, place),
        None => put_text(out, ""),
    }
}

// The same of a smaller number.
fn put_optional(out: &mut String, piece: &str, number: Option<u32>) -> Result<(), NoMemory>
    ensures { OnOk result (Grows (string_bytes out.old) (string_bytes out.new) (optional_piece piece.now number)) }
{
    match number {
        Some(number) => put_small(out, piece, number),
        None => put_text(out, ""),
    }
}

// Writes the line of a request.
fn put_request(out: &mut String, row: &RequestRow) -> Result<(), NoMemory>
    ensures { OnOk result (Grows (string_bytes out.old) (string_bytes out.new) (request_line (request_view row.now))) }
{
    put_small(out, "{\"client\":", row.client)?;
    put_optional(out, ",\"generation\":", row.generation)?;
    put_small(out, ",\"line\":", row.line)?;
    put_place(out, ",\"place\":", row.place)?;
    put_text(out, ",\"reply\":")?;
    put_reply(out, &row.reply)?;
    put_optional(out, ",\"ticket\":", row.ticket)?;
    put_text(out, "}\n")
}

// Writes the place of a searcher's end under one of its names.
fn put_end(out: &mut String, told: bool, piece: &str, place: u64) -> Result<(), NoMemory>
    ensures { OnOk result (Grows (string_bytes out.old) (string_bytes out.new) (end_piece told piece.now place)) }
{
    if told {
        put_number(out, piece, place)
    } else {
        put_text(out, "")
    }
}

// Writes a generation and a ticket.
fn put_pin(out: &mut String, generation: u32, ticket: u32) -> Result<(), NoMemory>
    ensures { OnOk result (Grows (string_bytes out.old) (string_bytes out.new) (from_piece (Some (generation, ticket)))) }
{
    put_small(out, ",\"from\":", generation)?;
    put_small(out, ",\"fromTicket\":", ticket)
}

// Writes the generation and the ticket from which a searcher was warmed.
fn put_from(out: &mut String, from: Option<(u32, u32)>) -> Result<(), NoMemory>
    ensures { OnOk result (Grows (string_bytes out.old) (string_bytes out.new) (from_piece (option_map (λ p. (p.0, p.1)) from))) }
{
    match from {
        Some((generation, ticket)) => put_pin(out, generation, ticket),
        None => put_text(out, ""),
    }
}

// Writes the line of a searcher.
fn put_searcher(out: &mut String, row: &SearcherRow) -> Result<(), NoMemory>
    ensures { OnOk result (Grows (string_bytes out.old) (string_bytes out.new) (searcher_line (searcher_view row.now))) }
{
    put_small(out, "{\"acquired\":", row.acquired)?;
    put_end(out, row.registered, ",\"finished\":", row.ended)?;
    put_from(out, row.from)?;
    put_small(out, ",\"generation\":", row.generation)?;
    put_number(out, ",\"opened\":", row.opened)?;
    put_end(out, !row.registered, ",\"superseded\":", row.ended)?;
    put_text(out, "}\n")
}

// Writes the lines of requests.
fn put_requests(out: &mut String, rows: &[RequestRow]) -> Result<(), NoMemory>
    ensures { OnOk result (Grows (string_bytes out.old) (string_bytes out.new) (lines_of request_view request_line rows.now)) }
{
    for row in rows {
        put_request(out, row)?;
    }
    Ok(())
}

// Writes the lines of searchers.
fn put_searchers(out: &mut String, rows: &[SearcherRow]) -> Result<(), NoMemory>
    ensures { OnOk result (Grows (string_bytes out.old) (string_bytes out.new) (lines_of searcher_view searcher_line rows.now)) }
{
    for row in rows {
        put_searcher(out, row)?;
    }
    Ok(())
}

/// The text of an output: a line a request, then a line a searcher, each a compact JSON object with its members
/// in the order of their names' bytes. It costs the text's length.
pub fn output_text(alloc: Global, config: &Config, output: &Output) -> Result<Text, NoMemory>
    ensures { IfOk result (λ t. t ≡ text_of_output (output_view output.now)) }
{
    let _ = config;
    let mut out = String::new(alloc);
    put_requests(&mut out, output.requests.get())?;
    put_searchers(&mut out, output.searchers.get())?;
    Ok(Text::new(out))
}
