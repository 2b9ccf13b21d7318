ghost use Rattle.std.specs.Prelude.{◌≡◌, ◌<◌, ◌≤◌, IfOk, OnOk, OnErr, IsSome, None, Some, length, slice_get};
ghost use Rattle.cache_machine.specs.Machine.{owned_by, look_answer, after_look, finished as after_finish, released};
ghost use Rattle.cache_traces.specs.Looking.{answer_of, told_of, with_look};
ghost use Rattle.cache_traces.specs.Traced.{AreSame, and_then};
ghost use Rattle.cache_traces.specs.declared.act.Act.TheVariants.{Finished, GaveUp, Listed};
ghost use Rattle.cache_traces.specs.Named.{all_named};
ghost use Rattle.std.specs.Result.{is_ok};
ghost use Rattle.cache_traces.specs.TracedCache.{IsTraced};
ghost use Rattle.cache_traces.specs.Traces.{rules};

use crate::kept::Kept;
use cache_traces::{Act, Looked, TracedCells};
use std::alloc::{AllocError, Global};
use view_cells::Fits;

/// A cache with its calls, which threads share.
#[derive(Drop)]
pub struct Cell<V: Kept> {
    pub cells: TracedCells<V::Key, V>,
}

impl<V: Kept> Fits for Cell<V> {
    type View = V::View;

    type Entry = Act<V::Key, V::Numbers>;

    ghost use Rattle.cache_traces.specs.Acts.{calls_of};
    ghost use Rattle.cache_traces.specs.Traces.{rules};
    ghost use Rattle.shared_cells.specs.Fitting.{CellFits};

    ghost fits = { λ view c. CellFits (rules V.Key.eq V.weight V.serves V.numbers V.keeps)
        (V.fits view) (V.size view) (V.greatest view) (V.seats view) c.cells };

    ghost entries = { λ c n. calls_of n c.cells.steps };
}

// Looks a key up for a seat that owns none. The key is copied where it is new.
pub(crate) fn looked<V: Kept>(
    alloc: Global,
    cell: &mut Cell<V>,
    key: &V::Key,
    need: u64,
    again: bool,
    seat: u32,
) -> Result<Looked<V>, AllocError>
    requires same { AreSame V.Key V.Key.eq }
    requires seat { seat < length cell.old.cells.cache.pending }
    requires idle { owned_by cell.old.cells.cache seat ≡ None }
    ensures answer { IfOk result (λ a. answer_of key.now a
        ≡ look_answer V.Key.eq (V.serves need) key.now cell.old.cells.cache) }
    ensures after { OnOk result (cell.new.cells.cache
        ≡ after_look V.Key.eq (V.serves need) key.now seat cell.old.cells.cache) }
    ensures steps { IfOk result (λ a. cell.new.cells.steps
        ≡ with_look cell.old.cells.steps seat key.now need again (told_of a)) }
    ensures cache_stays { OnErr result (cell.new.cells.cache ≡ cell.old.cells.cache) }
    ensures steps_stay { OnErr result (cell.new.cells.steps ≡ cell.old.cells.steps) }
    ensures traced { IsTraced (rules V.Key.eq V.weight V.serves V.numbers V.keeps) cell.new.cells }
{
    let cells = &mut cell.cells;
    let result = looked_up(alloc, cells, key, need, again, seat);
    let _seats = cells.seats();
    result
}

// The same of the cache alone.
fn looked_up<V: Kept>(
    alloc: Global,
    cells: &mut TracedCells<V::Key, V>,
    key: &V::Key,
    need: u64,
    again: bool,
    seat: u32,
) -> Result<Looked<V>, AllocError>
    requires same { AreSame V.Key V.Key.eq }
    requires seat { seat < length cells.old.cache.pending }
    requires idle { owned_by cells.old.cache seat ≡ None }
    ensures answer { IfOk result (λ a. answer_of key.now a
        ≡ look_answer V.Key.eq (V.serves need) key.now cells.old.cache) }
    ensures after { OnOk result (cells.new.cache
        ≡ after_look V.Key.eq (V.serves need) key.now seat cells.old.cache) }
    ensures steps { IfOk result (λ a. cells.new.steps
        ≡ with_look cells.old.steps seat key.now need again (told_of a)) }
    ensures cache_stays { OnErr result (cells.new.cache ≡ cells.old.cache) }
    ensures steps_stay { OnErr result (cells.new.steps ≡ cells.old.steps) }
{
    let number = number_of(alloc, cells, key)?;
    cells.look(number, need, again, seat)
}

// The number of a key, of which a copy is kept where it is new.
fn number_of<V: Kept>(
    alloc: Global,
    cells: &mut TracedCells<V::Key, V>,
    key: &V::Key,
) -> Result<u32, AllocError>
    requires same { AreSame V.Key V.Key.eq }
    ensures number { IfOk result (λ n. slice_get cells.new.keys n ≡ Some key.now) }
    ensures cache { cells.new.cache ≡ cells.old.cache }
    ensures steps { cells.new.steps ≡ cells.old.steps }
{
    if let Some(number) = cells.number_of(key) {
        return Ok(number);
    }
    let copy = V::copy(alloc, key)?;
    cells.number(copy)
}

// Ends the key of a seat that owns one, and stores its value.
pub(crate) fn ended<V: Kept>(
    cell: &mut Cell<V>,
    seat: u32,
    value: V,
    most: u32,
) -> Result<(), AllocError>
    requires same { AreSame V.Key V.Key.eq }
    requires owns { IsSome (owned_by cell.old.cells.cache seat) }
    ensures after { OnOk result (cell.new.cells.cache ≡ after_finish V.Key.eq V.weight seat value
        (V.keeps (V.numbers most value)) cell.old.cells.cache) }
    ensures no_memory { OnErr result (cell.new.cells.cache ≡ released seat cell.old.cells.cache) }
    ensures steps { (k : V.Key) → owned_by cell.old.cells.cache seat ≡ Some k → cell.new.cells.steps
        ≡ and_then cell.old.cells.steps seat (Finished k (V.numbers most value) (is_ok result)) }
    ensures traced { IsTraced (rules V.Key.eq V.weight V.serves V.numbers V.keeps) cell.new.cells }
{
    let cells = &mut cell.cells;
    let result = cells.finish(seat, value, most);
    let _seats = cells.seats();
    result
}

// Ends the key of a seat that owns one, of which nothing is stored.
pub(crate) fn given_up<V: Kept>(cell: &mut Cell<V>, seat: u32)
    requires owns { IsSome (owned_by cell.old.cells.cache seat) }
    ensures after { cell.new.cells.cache ≡ released seat cell.old.cells.cache }
    ensures steps { (k : V.Key) → owned_by cell.old.cells.cache seat ≡ Some k
        → cell.new.cells.steps ≡ and_then cell.old.cells.steps seat (GaveUp k) }
    ensures traced { IsTraced (rules V.Key.eq V.weight V.serves V.numbers V.keeps) cell.new.cells }
{
    let cells = &mut cell.cells;
    cells.give_up(seat);
    let _seats = cells.seats();
}

// Copies of the most recently used keys.
pub(crate) fn listed<V: Kept>(
    alloc: Global,
    cell: &mut Cell<V>,
    most: u32,
    seat: u32,
) -> Result<Vec<V::Key>, AllocError>
    requires seat { seat < length cell.old.cells.cache.pending }
    ensures few { IfOk result (λ ks. length ks.items ≤ most) }
    ensures cache { cell.new.cells.cache ≡ cell.old.cells.cache }
    ensures steps { IfOk result (λ ks. cell.new.cells.steps
        ≡ and_then cell.old.cells.steps seat (Listed most ks.items)) }
    ensures steps_stay { OnErr result (cell.new.cells.steps ≡ cell.old.cells.steps) }
    ensures traced { IsTraced (rules V.Key.eq V.weight V.serves V.numbers V.keeps) cell.new.cells }
{
    let cells = &mut cell.cells;
    let result = recent_of(alloc, cells, most, seat);
    let _seats = cells.seats();
    result
}

// The same of the cache alone. All copies are there before the call is told.
fn recent_of<V: Kept>(
    alloc: Global,
    cells: &mut TracedCells<V::Key, V>,
    most: u32,
    seat: u32,
) -> Result<Vec<V::Key>, AllocError>
    requires seat { seat < length cells.old.cache.pending }
    ensures few { IfOk result (λ ks. length ks.items ≤ most) }
    ensures cache { cells.new.cache ≡ cells.old.cache }
    ensures steps { IfOk result (λ ks. cells.new.steps
        ≡ and_then cells.old.steps seat (Listed most ks.items)) }
    ensures steps_stay { OnErr result (cells.new.steps ≡ cells.old.steps) }
{
    let numbers = cells.newest(alloc, most)?;
    let keys = copies(alloc, cells, &numbers)?;
    cells.recent(alloc, most, seat)?;
    Ok(keys)
}

// Copies of the keys of these numbers.
fn copies<V: Kept>(
    alloc: Global,
    cells: &TracedCells<V::Key, V>,
    numbers: &[u32],
) -> Result<Vec<V::Key>, AllocError>
    requires { IsSome (all_named cells.now.keys numbers.now) }
    ensures { IfOk result (λ ks. all_named cells.now.keys numbers.now ≡ Some ks.items) }
{
    let mut keys = Vec::new(alloc);
    for number in numbers {
        let key = V::copy(alloc, cells.key(*number))?;
        keys.push(key)?;
    }
    Ok(keys)
}
