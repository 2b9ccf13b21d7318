ghost use Rattle.std.specs.Prelude.{◌≡◌, IfOk, OnOk, OnErr, is_some, nat_eq};
ghost use Rattle.cache_machine.specs.Machine.{served, stored};
ghost use Rattle.cache_traces.specs.StoreTraces.{after_found};
ghost use Rattle.cache_traces.specs.TracedStore.{IsTracedStore, one_more};
ghost use Rattle.cache_traces.specs.Traces.{rules};
ghost use Rattle.cache_traces.specs.declared.store_act.StoreAct.TheVariants.{Looked, Put};

use crate::numbered::Numbered;
use cache_traces::{StoreAct, TracedStore};
use std::alloc::AllocError;
use view_cells::Fits;

/// A store with its calls, which threads share.
#[derive(Drop)]
pub struct StoreCell<V: Numbered> {
    pub cells: TracedStore<V>,
}

impl<V: Numbered> Fits for StoreCell<V> {
    type View = V::View;

    type Entry = StoreAct<V::Numbers>;

    ghost use Rattle.std.specs.Prelude.{nat_eq};
    ghost use Rattle.cache_traces.specs.StoreTraces.{store_calls_of};
    ghost use Rattle.cache_traces.specs.Traces.{rules};
    ghost use Rattle.shared_cells.specs.Fitting.{StoreFits};

    ghost fits = { λ view c. StoreFits (rules nat_eq V.weight V.serves V.numbers V.keeps)
        (V.fits view) (V.size view) (V.greatest view) c.cells };

    ghost entries = { λ c n. store_calls_of n c.cells.steps };
}

// Looks a number up.
pub(crate) fn fetched<V: Numbered>(
    cell: &mut StoreCell<V>,
    number: u32,
    seat: u32,
) -> Result<Option<V>, AllocError>
    ensures answer { IfOk result (λ v. v
        ≡ served nat_eq (V.serves 0) number cell.old.cells.kept.entries) }
    ensures after { IfOk result (λ v. cell.new.cells.kept
        ≡ after_found nat_eq number (is_some v) cell.old.cells.kept) }
    ensures steps { IfOk result (λ v. cell.new.cells.steps
        ≡ one_more cell.old.cells.steps seat (Looked number (is_some v))) }
    ensures kept_stays { OnErr result (cell.new.cells.kept ≡ cell.old.cells.kept) }
    ensures steps_stay { OnErr result (cell.new.cells.steps ≡ cell.old.cells.steps) }
    ensures traced { IsTracedStore (rules nat_eq V.weight V.serves V.numbers V.keeps)
        cell.new.cells }
{
    let cells = &mut cell.cells;
    let result = cells.look(number, seat);
    let _count = cells.len();
    result
}

// Puts a value.
pub(crate) fn stored<V: Numbered>(
    cell: &mut StoreCell<V>,
    number: u32,
    value: V,
    seat: u32,
) -> Result<(), AllocError>
    ensures after { OnOk result (cell.new.cells.kept
        ≡ stored nat_eq V.weight number value cell.old.cells.kept) }
    ensures steps { OnOk result (cell.new.cells.steps
        ≡ one_more cell.old.cells.steps seat (Put number (V.numbers 0 value))) }
    ensures kept_stays { OnErr result (cell.new.cells.kept ≡ cell.old.cells.kept) }
    ensures steps_stay { OnErr result (cell.new.cells.steps ≡ cell.old.cells.steps) }
    ensures traced { IsTracedStore (rules nat_eq V.weight V.serves V.numbers V.keeps)
        cell.new.cells }
{
    let cells = &mut cell.cells;
    let result = cells.put(number, value, seat);
    let _count = cells.len();
    result
}
