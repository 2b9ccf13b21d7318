// Quoted texts and ranges.
ghost use Rattle.std.specs.Prelude.{◌≡◌, IfOk, Ok, Err, Some, None, MatchResult};
ghost use Rattle.query_lexemes.specs.Letters.{text_of as text_of_letters};
ghost use Rattle.query_lexemes.specs.Lexemes.{quoted, run_text, quoted_bound, run_bound, bound as bound_of, between, range_close, range_to, range_between, range_from, begun, range as range_of};

use crate::fault::QueryFault;
use crate::letter::{
    Class, Letter, begins_blank, begins_lone, begins_with, has_escape, odd_place, place, skip,
    split_run, tail, text_of,
};
use crate::lexeme::{Bound, Lexeme, What};
use field_schema::{NoMemory, Text};
use std::alloc::Global;

// A quoted text whose opening quote stands at a place, and what stands behind it.
#[tactic(auto, unfolding(crate::specs::Lexemes::quoted))]
pub(crate) fn quoted<'a>(
    alloc: Global,
    end: usize,
    at: usize,
    rest: &'a [Letter],
) -> Result<(Lexeme, &'a [Letter]), NoMemory>
    ensures { IfOk result (λ r. (r.0, r.1.now) ≡ quoted end at rest.now) }
{
    let (inside, behind) = split_run(Class::Quote, rest);
    if begins_with(behind, '"') {
        let text = text_of(alloc, inside)?;
        let what = What::Quoted(text);
        return Ok((
            Lexeme {
                at,
                what,
                wrong: None,
            },
            tail(behind),
        ));
    }
    Ok(begun(at, None, None, end))
}

// A quoted text or a range that goes wrong behind those of its ends that are whole.
fn begun<'a>(
    at: usize,
    from: Option<Bound>,
    to: Option<Bound>,
    place: usize,
) -> (Lexeme, &'a [Letter])
    ensures { (result.0, result.1.now) ≡ begun at from to place }
{
    let wrong = Some(QueryFault::Syntax { at: place });
    let what = What::Begun { from, to };
    (Lexeme { at, what, wrong }, &[])
}

// The text of a run, none where it is exactly `*`.
#[tactic(auto, unfolding(crate::specs::Lexemes::run_text))]
fn run_text(alloc: Global, run: &[Letter]) -> Result<Option<Text>, NoMemory>
    ensures { IfOk result (λ t. t ≡ run_text run.now) }
{
    let text = text_of(alloc, run)?;
    if !has_escape(run) && text.get() == "*" {
        return Ok(None);
    }
    Ok(Some(text))
}

// What a step of a range reads and what stands behind it, or the place of the fault.
type Step<'a, T> = Result<(T, &'a [Letter]), usize>;

// An end of a range in quotes.
#[tactic(auto, unfolding(crate::specs::Lexemes::quoted_bound))]
fn quoted_bound<'a>(
    alloc: Global,
    end: usize,
    at: usize,
    rest: &'a [Letter],
) -> Result<Step<'a, Bound>, NoMemory>
    ensures { IfOk result (λ r. MatchResult r
        (λ b. quoted_bound end at rest.now ≡ Ok (b.0, b.1.now)) (λ p. quoted_bound end at rest.now ≡ Err p)) }
{
    let (inside, behind) = split_run(Class::Quote, rest);
    if !begins_with(behind, '"') {
        return Ok(Err(end));
    }
    let text = Some(text_of(alloc, inside)?);
    Ok(Ok((Bound { at, text }, tail(behind))))
}

// An end of a range without quotes, and the letters behind it.
#[tactic(auto, unfolding(crate::specs::Lexemes::run_bound))]
fn run_bound<'a>(
    alloc: Global,
    end: usize,
    at: usize,
    run: &'a [Letter],
    rest: &'a [Letter],
) -> Result<Step<'a, Bound>, NoMemory>
    ensures { IfOk result (λ r. MatchResult r
        (λ b. run_bound end at run.now rest.now ≡ Ok (b.0, b.1.now)) (λ p. run_bound end at run.now rest.now ≡ Err p)) }
{
    if begins_lone(rest) {
        return Ok(Err(end));
    }
    if run.is_empty() {
        return Ok(Err(at));
    }
    let text = run_text(alloc, run)?;
    Ok(Ok((Bound { at, text }, rest)))
}

// An end of a range.
#[tactic(auto, unfolding(crate::specs::Lexemes::bound))]
fn bound(alloc: Global, end: usize, letters: &[Letter]) -> Result<Step<'_, Bound>, NoMemory>
    ensures { IfOk result (λ r. MatchResult r
        (λ b. bound_of end letters.now ≡ Ok (b.0, b.1.now)) (λ p. bound_of end letters.now ≡ Err p)) }
{
    let at = place(end, letters);
    if begins_with(letters, '"') {
        return quoted_bound(alloc, end, at, tail(letters));
    }
    let (run, rest) = split_run(Class::Run, letters);
    run_bound(alloc, end, at, run, rest)
}

// What stands behind white space, `TO` and white space, or the place of the fault.
#[tactic(auto, unfolding(crate::specs::Lexemes::between))]
fn between(end: usize, letters: &[Letter]) -> Result<&[Letter], usize>
    ensures { MatchResult result
        (λ rest. between end letters.now ≡ Ok rest.now) (λ p. between end letters.now ≡ Err p) }
{
    if !begins_blank(letters) {
        return Err(odd_place(end, letters));
    }
    let first = skip(letters);
    if !begins_with(first, 'T') {
        return Err(odd_place(end, first));
    }
    let second = tail(first);
    if !begins_with(second, 'O') {
        return Err(place(end, second));
    }
    let third = tail(second);
    if !begins_blank(third) {
        return Err(odd_place(end, third));
    }
    Ok(skip(third))
}

// The closing bracket of a range.
#[tactic(auto, unfolding(crate::specs::Lexemes::range_close))]
fn range_close(
    end: usize,
    at: usize,
    low: bool,
    from: Bound,
    to: Bound,
    rest: &[Letter],
) -> (Lexeme, &[Letter])
    ensures { (result.0, result.1.now) ≡ range_close end at low from to rest.now }
{
    let high = begins_with(rest, ']');
    if high || begins_with(rest, '}') {
        let what = What::Range {
            low,
            from,
            to,
            high,
        };
        return (
            Lexeme {
                at,
                what,
                wrong: None,
            },
            tail(rest),
        );
    }
    begun(at, Some(from), Some(to), odd_place(end, rest))
}

// A range behind its `TO`.
#[tactic(auto, unfolding(crate::specs::Lexemes::range_to))]
fn range_to<'a>(
    end: usize,
    at: usize,
    low: bool,
    from: Bound,
    to: Step<'a, Bound>,
) -> (Lexeme, &'a [Letter])
    ensures { MatchResult to.entry
        (λ b. (result.0, result.1.now) ≡ range_to end at low from (Ok (b.0, b.1.now)))
        (λ p. (result.0, result.1.now) ≡ range_to end at low from (Err p)) }
{
    match to {
        Ok((to, rest)) => range_close(end, at, low, from, to, skip(rest)),
        Err(p) => begun(at, Some(from), None, p),
    }
}

// A range behind its lower end.
#[tactic(auto, unfolding(crate::specs::Lexemes::range_between))]
fn range_between<'a>(
    alloc: Global,
    end: usize,
    at: usize,
    low: bool,
    from: Bound,
    rest: &'a [Letter],
) -> Result<(Lexeme, &'a [Letter]), NoMemory>
    ensures { IfOk result (λ r. (r.0, r.1.now) ≡ range_between end at low from (between end rest.now)) }
{
    match between(end, rest) {
        Ok(rest) => {
            let to = bound(alloc, end, rest)?;
            Ok(range_to(end, at, low, from, to))
        }
        Err(p) => Ok(begun(at, Some(from), None, p)),
    }
}

// A range whose opening bracket stands at a place, and what stands behind it.
#[tactic(auto, unfolding(crate::specs::Lexemes::range, crate::specs::Lexemes::range_from))]
pub(crate) fn range<'a>(
    alloc: Global,
    end: usize,
    at: usize,
    low: bool,
    rest: &'a [Letter],
) -> Result<(Lexeme, &'a [Letter]), NoMemory>
    ensures { IfOk result (λ r. (r.0, r.1.now) ≡ range_of end at low rest.now) }
{
    match bound(alloc, end, skip(rest))? {
        Ok((from, rest)) => range_between(alloc, end, at, low, from, rest),
        Err(p) => Ok(begun(at, None, None, p)),
    }
}
