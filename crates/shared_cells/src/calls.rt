ghost use Rattle.std.specs.Prelude.{◌≡◌, ◌≤◌, ◌++◌, length, IfOk, OnErr, IsSome, None};
ghost use Rattle.std.specs.Result.{is_ok};
ghost use Rattle.cache_traces.specs.declared.act.Act.TheVariants.{Finished, GaveUp, Listed};
ghost use Rattle.view_cells.specs.Seats.{view_of, own_list};
ghost use Rattle.cache_traces.specs.Looking.{told_of};
ghost use Rattle.cache_traces.specs.Traced.{AreSame};
ghost use Rattle.shared_cells.specs.Lists.{look_told, AsksFor, Asked, GoesOnBy};
ghost use Rattle.shared_cells.specs.Seated.{IsPlaced, IsBack, HitFits, FoundFits, OfOwned, is_again, told_by, owned_key};

use crate::cell::{Cell, ended, given_up, listed, looked};
use crate::kept::Kept;
use cache_traces::Looked;
use std::alloc::{AllocError, Global};
use std::sync::Wait;
use std::thread::yield_now;
use view_cells::Seat;

/// What a look-up found, and whether it was asked again after another seat had been computing the key.
#[derive(Drop)]
pub enum Found<V: Drop> {
    /// The value.
    Hit { value: V, again: bool },
    /// Nothing. The seat owns the key from now on, and computes its value.
    Own { again: bool },
}

/// Looks a key up for a seat that owns none, again and again while another seat computes it. The cache is held during each
/// look and not between them.
///
/// Fails only for want of memory; the seat then owns nothing. It may wait for ever, if the owner of the key doesn't end it.
pub fn look_up<V: Kept, R: Wait>(
    rt: &R,
    alloc: Global,
    seat: &mut Seat<Cell<V>>,
    key: &V::Key,
    need: u64,
) -> Result<Found<V>, AllocError>
    requires same { AreSame V.Key V.Key.eq }
    requires placed { IsPlaced V.seats seat.old }
    requires owns { owned_key seat.old ≡ None }
    ensures back { IsBack seat.old seat.new }
    ensures hit { IfOk result (FoundFits (V.fits (view_of seat.old)) (V.serves need) key.now) }
    ensures list { IfOk result (λ f. AsksFor key.now need (is_again f) (told_by f)
        (own_list seat.old) (own_list seat.new)) }
    ensures no_memory { OnErr result (Asked key.now need (own_list seat.old) (own_list seat.new)) }
{
    let mut again = false;
    for _ in rt.forever() {
        match look_once(rt, alloc, seat, key, need, again)? {
            Looked::Hit(value) => return Ok(Found::Hit { value, again }),
            Looked::Own => return Ok(Found::Own { again }),
            Looked::Join(_owner) => again = true,
        }
        yield_now();
    }
    unreachable!()
}

/// Ends the key of a seat that owns one, and stores its value first, unless it may not be kept.
///
/// Where memory is wanting, the key is no longer owned, and what is kept is as before. It waits for the cache.
pub fn finish<V: Kept, R: Wait>(
    rt: &R,
    seat: &mut Seat<Cell<V>>,
    value: V,
    most: u32,
) -> Result<(), AllocError>
    requires same { AreSame V.Key V.Key.eq }
    requires placed { IsPlaced V.seats seat.old }
    requires owns { IsSome (owned_key seat.old) }
    requires fits { OfOwned seat.old (λ k. V.fits (view_of seat.old) k value) }
    ensures back { IsBack seat.old seat.new }
    ensures list { OfOwned seat.old (λ k.
        GoesOnBy (Finished k (V.numbers most value) (is_ok result))
        (own_list seat.old) (own_list seat.new)) }
{
    let number = seat.number();
    let mut held = seat.take(rt);
    let result = ended(held.value(), number, value, most);
    held.put_back();
    result
}

/// Ends the key of a seat that owns one, of which nothing is stored. It takes no memory, and waits for the cache.
pub fn give_up<V: Kept, R: Wait>(rt: &R, seat: &mut Seat<Cell<V>>)
    requires placed { IsPlaced V.seats seat.old }
    requires owns { IsSome (owned_key seat.old) }
    ensures back { IsBack seat.old seat.new }
    ensures list { OfOwned seat.old (λ k. GoesOnBy (GaveUp k)
        (own_list seat.old) (own_list seat.new)) }
{
    let number = seat.number();
    let mut held = seat.take(rt);
    given_up(held.value(), number);
    held.put_back();
}

/// Copies of the most recently used keys, at most so many, the most recent first. It waits for the cache.
///
/// Fails only for want of memory; the call is then not told.
pub fn recent<V: Kept, R: Wait>(
    rt: &R,
    alloc: Global,
    seat: &mut Seat<Cell<V>>,
    most: u32,
) -> Result<Vec<V::Key>, AllocError>
    requires placed { IsPlaced V.seats seat.old }
    ensures back { IsBack seat.old seat.new }
    ensures few { IfOk result (λ ks. length ks.items ≤ most) }
    ensures list { IfOk result (λ ks. GoesOnBy (Listed most ks.items)
        (own_list seat.old) (own_list seat.new)) }
    ensures list_stays { OnErr result (own_list seat.new ≡ own_list seat.old) }
{
    let number = seat.number();
    let mut held = seat.take(rt);
    let result = listed(alloc, held.value(), most, number);
    held.put_back();
    result
}

// Takes the cache, looks a key up once, and puts the cache back.
fn look_once<V: Kept, R: Wait>(
    rt: &R,
    alloc: Global,
    seat: &mut Seat<Cell<V>>,
    key: &V::Key,
    need: u64,
    again: bool,
) -> Result<Looked<V>, AllocError>
    requires same { AreSame V.Key V.Key.eq }
    requires placed { IsPlaced V.seats seat.old }
    requires owns { owned_key seat.old ≡ None }
    ensures back { IsBack seat.old seat.new }
    ensures list { IfOk result (λ a. own_list seat.new
        ≡ own_list seat.old ++ look_told key.now need again (told_of a)) }
    ensures list_stays { OnErr result (own_list seat.new ≡ own_list seat.old) }
    ensures hit { IfOk result (HitFits (V.fits (view_of seat.old)) (V.serves need) key.now) }
{
    let number = seat.number();
    let mut held = seat.take(rt);
    let result = looked(alloc, held.value(), key, need, again, number);
    held.put_back();
    result
}
