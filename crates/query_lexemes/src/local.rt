// Local parameters.
ghost use Rattle.std.specs.Prelude.{◌≡◌, IfOk, Ok, Err, MatchResult, option_map, option_copied};
ghost use Rattle.query_lexemes.specs.Letters.{text_of as text_of_letters};
ghost use Rattle.query_lexemes.specs.Local.{int_text, with_cost, with_cached, with_number, with_item, local_of, local_items, local, behind_mark};

use crate::letter::{Class, Letter, begins_with, has_escape, place, split_run, tail, text_of};
use field_schema::NoMemory;
use std::alloc::Global;

/// What the local parameters of a query text say.
#[derive(Clone, Copy, Debug, PartialEq, Eq)]
pub struct Local {
    /// Whether the caches may be used.
    pub cached: bool,
    /// When a filter is evaluated among those that are not cached.
    pub cost: i32,
}

/// The items so far.
#[derive(Clone, Copy, Debug)]
pub(crate) struct Items {
    cached: Option<bool>,
    cost: Option<i32>,
}

// The number that a text writes, within 32 signed bits.
fn int_text(text: &str) -> Option<i32>
    ensures { result ≡ int_text text.now }
{
    text.parse::<i32>().ok()
}

// The items with `cost=` and a number.
#[tactic(auto, unfolding(crate::specs::Local::with_number))]
fn with_number(alloc: Global, items: Items, item: &[Letter]) -> Result<Option<Items>, NoMemory>
    ensures { IfOk result (λ r. r ≡ with_number items item.now) }
{
    if item.len() < 5 {
        return Ok(None);
    }
    let (name, value) = item.split_at(5);
    let name = text_of(alloc, name)?;
    if name.get() != "cost=" {
        return Ok(None);
    }
    let value = text_of(alloc, value)?;
    Ok(with_cost(items, int_text(value.get())))
}

fn with_cost(items: Items, cost: Option<i32>) -> Option<Items>
    ensures { result ≡ option_map (with_cost items) cost }
{
    match cost {
        Some(cost) => Some(Items {
            cached: items.cached,
            cost: Some(items.cost.unwrap_or(cost)),
        }),
        None => None,
    }
}

fn with_cached(items: Items, cached: bool) -> Items
    ensures { result ≡ with_cached items cached }
{
    Items {
        cached: Some(items.cached.unwrap_or(cached)),
        cost: items.cost,
    }
}

// The items with one more, where it is one.
#[tactic(auto, unfolding(crate::specs::Local::with_item))]
fn with_item(alloc: Global, items: Items, item: &[Letter]) -> Result<Option<Items>, NoMemory>
    ensures { IfOk result (λ r. r ≡ with_item items item.now) }
{
    if has_escape(item) {
        return Ok(None);
    }
    let text = text_of(alloc, item)?;
    match text.get() {
        "cache=true" => Ok(Some(with_cached(items, true))),
        "cache=false" => Ok(Some(with_cached(items, false))),
        _ => with_number(alloc, items, item),
    }
}

/// What local parameters read to and the letters behind them, or the place of their fault.
pub type ReadLocal<'a> = Result<(Local, &'a [Letter]), usize>;

/// Reads local parameters, of which the letters are those behind `{!`.
///
/// `end` is the length of the text. It costs the length of the parameters.
#[tactic(auto, using(crate::proofs::ItemsTurn::items_turn), unfolding(crate::specs::Local::local, crate::specs::Local::local_items))]
pub fn read_local(alloc: Global, end: usize, letters: &[Letter]) -> Result<ReadLocal<'_>, NoMemory>
    ensures { IfOk result (λ r. MatchResult r
        (λ p. local end letters.now ≡ Ok (p.0, p.1.now)) (λ at. local end letters.now ≡ Err at)) }
{
    let mut items = Items {
        cached: None,
        cost: None,
    };
    let mut rest = letters;
    for turn in 0..letters.len() + 1 {
        let (_, here) = split_run(Class::Space, rest);
        if begins_with(here, '}') {
            return Ok(Ok((local_of(items), tail(here))));
        }
        if here.is_empty() {
            return Ok(Err(end));
        }
        let (item, behind) = split_run(Class::Item, here);
        let Some(more) = with_item(alloc, items, item)? else {
            return Ok(Err(place(end, here)));
        };
        items = more;
        rest = behind;
    }
    Ok(Err(end))
}

// What the items say.
fn local_of(items: Items) -> Local
    ensures { result ≡ local_of items }
{
    Local {
        cached: items.cached.unwrap_or(true),
        cost: items.cost.unwrap_or(0),
    }
}

/// The letters behind `{!`, where local parameters begin the text.
pub fn behind_mark(letters: &[Letter]) -> Option<&[Letter]>
    ensures { option_copied result ≡ behind_mark letters.now }
{
    if begins_with(letters, '{') && begins_with(tail(letters), '!') {
        return Some(tail(tail(letters)));
    }
    None
}
