ghost use Rattle.std.specs.Prelude.{◌≡◌, true, IfOk, OnOk, OnErr, IfSome, is_some};
ghost use Rattle.cache_traces.specs.declared.store_act.StoreAct.TheVariants.{Looked, Put};
ghost use Rattle.view_cells.specs.Seats.{IsIdle, view_of, own_list};
ghost use Rattle.shared_cells.specs.Lists.{GoesOnBy};
ghost use Rattle.shared_cells.specs.Seated.{IsBack};

use crate::numbered::Numbered;
use crate::store_cell::{StoreCell, fetched, stored};
use std::alloc::AllocError;
use std::sync::Wait;
use view_cells::Seat;

/// The value of a number, where the store has it. It waits for the store.
///
/// Fails only for want of memory; the look-up is then not told.
pub fn fetch<V: Numbered, R: Wait>(
    rt: &R,
    seat: &mut Seat<StoreCell<V>>,
    number: u32,
) -> Result<Option<V>, AllocError>
    requires idle { IsIdle seat.old }
    ensures back { IsBack seat.old seat.new }
    ensures hit { IfOk result (λ o. IfSome o (λ v. V.fits (view_of seat.old) number v)) }
    ensures serves { IfOk result (λ o. IfSome o (λ v. V.serves 0 v ≡ true)) }
    ensures list { IfOk result (λ o. GoesOnBy (Looked number (is_some o))
        (own_list seat.old) (own_list seat.new)) }
    ensures list_stays { OnErr result (own_list seat.new ≡ own_list seat.old) }
{
    let own = seat.number();
    let mut held = seat.take(rt);
    let result = fetched(held.value(), number, own);
    held.put_back();
    result
}

/// Puts the value of a number, unless it is heavier than the greatest weight. It waits for the store.
///
/// Fails only for want of memory; the call is then not told, and what is kept is as before.
pub fn put<V: Numbered, R: Wait>(
    rt: &R,
    seat: &mut Seat<StoreCell<V>>,
    number: u32,
    value: V,
) -> Result<(), AllocError>
    requires idle { IsIdle seat.old }
    requires fits { V.fits (view_of seat.old) number value }
    ensures back { IsBack seat.old seat.new }
    ensures list { OnOk result (GoesOnBy (Put number (V.numbers 0 value))
        (own_list seat.old) (own_list seat.new)) }
    ensures list_stays { OnErr result (own_list seat.new ≡ own_list seat.old) }
{
    let own = seat.number();
    let mut held = seat.take(rt);
    let result = stored(held.value(), number, value, own);
    held.put_back();
    result
}
