//! The summary of an output.
ghost use Rattle.std.specs.Prelude.{◌≡◌, IfOk, OnOk, count_by, string_bytes};
ghost use Rattle.run_laws.specs.Bounds.{is_commit as is_commit_verb, is_query as is_query_verb};
ghost use Rattle.run_laws.specs.Summary.{accepted_as, is_hit as is_hit_note, is_lookup as is_lookup_note, is_update as is_update_verb, of_result, refused_with};
ghost use Rattle.run_laws.specs.Summary.{summary_text as text_of_summary, totals_line};
ghost use Rattle.client_runner.specs.OutputPieces.{Grows};
ghost use Rattle.client_runner.specs.Outputs.{output_view};
ghost use Rattle.client_runner.specs.Totals.{AreSums, counted, first_pieces, other_pieces, totals_at, totals_view};
ghost use Rattle.client_runner.specs.Views.{request_view, verb_view};

use crate::output::{put_number, put_text};
use crate::rows::{Output, RequestRow, Verb};
use field_schema::{NoMemory, Text};
use search_model::Note;
use std::alloc::Global;

// What an output has in all.
#[derive(Clone, Copy)]
pub(crate) struct Totals {
    commits: usize,
    updates: usize,
    queries: usize,
    refused_400: usize,
    refused_500: usize,
    refused_503: usize,
    searchers: usize,
    found: u64,
    result_lookups: usize,
    result_hits: usize,
    filter_lookups: u64,
    filter_hits: u64,
    document_lookups: u64,
    document_hits: u64,
}

fn is_commit(verb: Verb) -> bool
    ensures { result ≡ is_commit_verb (verb_view verb) }
{
    matches!(verb, Verb::Commit)
}

fn is_query(verb: Verb) -> bool
    ensures { result ≡ is_query_verb (verb_view verb) }
{
    matches!(verb, Verb::Query)
}

fn is_update(verb: Verb) -> bool
    ensures { result ≡ is_update_verb (verb_view verb) }
{
    matches!(verb, Verb::Add | Verb::Delete)
}

// Whether a cache was asked.
fn is_lookup(note: Note) -> bool
    ensures { result ≡ is_lookup_note note }
{
    !matches!(note, Note::Bypassed)
}

// Whether it had the entry.
fn is_hit(note: Note) -> bool
    ensures { result ≡ is_hit_note note }
{
    matches!(note, Note::Hit)
}

// How many commits were accepted.
fn commits(rows: &[RequestRow]) -> usize
    ensures { result ≡ counted (accepted_as is_commit_verb) rows.now }
{
    rows.iter()
        .filter(|row| row.code == 0 && is_commit(row.verb))
        .count()
}

// How many updates were accepted.
fn updates(rows: &[RequestRow]) -> usize
    ensures { result ≡ counted (accepted_as is_update_verb) rows.now }
{
    rows.iter()
        .filter(|row| row.code == 0 && is_update(row.verb))
        .count()
}

// How many queries were answered.
fn queries(rows: &[RequestRow]) -> usize
    ensures { result ≡ counted (accepted_as is_query_verb) rows.now }
{
    rows.iter()
        .filter(|row| row.code == 0 && is_query(row.verb))
        .count()
}

// How many requests were refused with a code.
fn refused(rows: &[RequestRow], code: u32) -> usize
    ensures { result ≡ counted (refused_with code) rows.now }
{
    rows.iter().filter(|row| row.code == code).count()
}

// How many times the cache of results was asked.
fn result_lookups(rows: &[RequestRow]) -> usize
    ensures { result ≡ counted (of_result is_lookup_note) rows.now }
{
    rows.iter()
        .filter(|row| row.result.map_or(false, |note| is_lookup(note)))
        .count()
}

// How often it had the entry.
fn result_hits(rows: &[RequestRow]) -> usize
    ensures { result ≡ counted (of_result is_hit_note) rows.now }
{
    rows.iter()
        .filter(|row| row.result.map_or(false, |note| is_hit(note)))
        .count()
}

// For how many filters of a request the cache of filters was asked.
fn lookups_of(notes: &[Note]) -> usize
    ensures { result ≡ count_by is_lookup_note notes.now }
{
    notes.iter().filter(|note| is_lookup(**note)).count()
}

// For how many of them it had the entry.
fn hits_of(notes: &[Note]) -> usize
    ensures { result ≡ count_by is_hit_note notes.now }
{
    notes.iter().filter(|note| is_hit(**note)).count()
}

// What rows have in all of what each has several of, at most the greatest number.
#[derive(Clone, Copy)]
pub(crate) struct Sums {
    found: u64,
    documents: u64,
    document_hits: u64,
    filter_lookups: u64,
    filter_hits: u64,
}

// The sums of rows.
fn sums_of(rows: &[RequestRow]) -> Sums
    ensures { AreSums rows.now result }
{
    let mut sums = Sums {
        found: 0,
        documents: 0,
        document_hits: 0,
        filter_lookups: 0,
        filter_hits: 0,
    };
    for row in rows {
        let asked = lookups_of(row.filters.as_slice()) as u64;
        let hits = hits_of(row.filters.as_slice()) as u64;
        sums.found = sums.found.saturating_add(u64::from(row.found));
        sums.documents = sums.documents.saturating_add(u64::from(row.docs));
        sums.document_hits = sums.document_hits.saturating_add(u64::from(row.doc_hits));
        sums.filter_lookups = sums.filter_lookups.saturating_add(asked);
        sums.filter_hits = sums.filter_hits.saturating_add(hits);
    }
    sums
}

// What rows and so many searchers have in all, without memory.
fn totals_of(rows: &[RequestRow], searchers: usize) -> Totals
    ensures { totals_view result ≡ totals_at rows.now searchers }
{
    let sums = sums_of(rows);
    Totals {
        commits: commits(rows),
        updates: updates(rows),
        queries: queries(rows),
        refused_400: refused(rows, 400),
        refused_500: refused(rows, 500),
        refused_503: refused(rows, 503),
        searchers,
        found: sums.found,
        result_lookups: result_lookups(rows),
        result_hits: result_hits(rows),
        filter_lookups: sums.filter_lookups,
        filter_hits: sums.filter_hits,
        document_lookups: sums.documents,
        document_hits: sums.document_hits,
    }
}

// Writes the first totals, in the order of their names.
fn put_first(out: &mut String, totals: &Totals) -> Result<(), NoMemory>
    ensures { OnOk result (Grows (string_bytes out.old) (string_bytes out.new) (first_pieces (totals_view totals.now))) }
{
    put_number(out, "{\"commits\":", totals.commits as u64)?;
    put_number(out, ",\"documentHits\":", totals.document_hits)?;
    put_number(out, ",\"documentLookups\":", totals.document_lookups)?;
    put_number(out, ",\"filterHits\":", totals.filter_hits)?;
    put_number(out, ",\"filterLookups\":", totals.filter_lookups)?;
    put_number(out, ",\"found\":", totals.found)?;
    put_number(out, ",\"queries\":", totals.queries as u64)
}

// Writes the other totals, and ends the line.
fn put_others(out: &mut String, totals: &Totals) -> Result<(), NoMemory>
    ensures { OnOk result (Grows (string_bytes out.old) (string_bytes out.new) (other_pieces (totals_view totals.now))) }
{
    put_number(out, ",\"refused400\":", totals.refused_400 as u64)?;
    put_number(out, ",\"refused500\":", totals.refused_500 as u64)?;
    put_number(out, ",\"refused503\":", totals.refused_503 as u64)?;
    put_number(out, ",\"resultHits\":", totals.result_hits as u64)?;
    put_number(out, ",\"resultLookups\":", totals.result_lookups as u64)?;
    put_number(out, ",\"searchers\":", totals.searchers as u64)?;
    put_number(out, ",\"updates\":", totals.updates as u64)?;
    put_text(out, "}\n")
}

// The line that tells totals.
fn line_of(alloc: Global, totals: &Totals) -> Result<Text, NoMemory>
    ensures { IfOk result (λ t. t ≡ totals_line (totals_view totals.now)) }
{
    let mut out = String::new(alloc);
    put_first(&mut out, totals)?;
    put_others(&mut out, totals)?;
    Ok(Text::new(out))
}

/// The summary of an output: a compact JSON object of whole numbers, its members in the order of their names' bytes, and a line
/// feed.
///
/// `commits`, `updates` and `queries` are those that were accepted, `refused400`, `refused500` and `refused503` the replies
/// with these codes, `searchers` all that were opened, `found` the sum of all `numFound`. For each of the three caches the
/// look-ups of requests are counted, not those of warmings, and how many of them were hits. A sum past 18,446,744,073,709,551,615
/// is written as that number. An error is want of memory. It looks at each row nine times.
pub fn summary_text(alloc: Global, output: &Output) -> Result<Text, NoMemory>
    ensures { IfOk result (λ t. t ≡ text_of_summary (output_view output.now)) }
{
    let totals = totals_of(output.requests.get(), output.searchers.get().len());
    line_of(alloc, &totals)
}
