//! The keys that are regenerated.
ghost use Rattle.std.specs.Prelude.{◌≡◌, ◌≤◌, IfOk, OnErr, List, None, length};
ghost use Rattle.cache_traces.specs.declared.act.Act.TheVariants.{Listed};
ghost use Rattle.view_cells.specs.Seats.{own_list};
ghost use Rattle.shared_cells.specs.Lists.{GoesOnBy};
ghost use Rattle.shared_cells.specs.Seated.{IsBack, IsPlaced, owned_key};
ghost use Rattle.autowarm.specs.WarmKeys.{AreWarmKeys};

use crate::count::{WarmCount, warm_number};
use field_schema::NoMemory;
use shared_cells::{Cell, Kept, recent};
use std::alloc::Global;
use std::sync::Wait;
use view_cells::Seat;

// The most keys that are listed of a cache. No cache keeps more.
pub(crate) const MOST_KEYS: u32 = 4096;

// Of the most recent keys of an old cache as many as are wanted, the least recent of them first.
pub(crate) fn warm_keys<V: Kept, R: Wait>(
    rt: &R,
    alloc: Global,
    seat: &mut Seat<Cell<V>>,
    count: WarmCount,
) -> Result<Vec<V::Key>, NoMemory>
    requires placed { IsPlaced V.seats seat.old }
    requires owns { owned_key seat.old ≡ None }
    ensures back { IsBack seat.old seat.new }
    ensures owns { owned_key seat.new ≡ None }
    ensures few { IfOk result (λ ks. length ks.items ≤ MOST_KEYS) }
    ensures keys { IfOk result (λ ks. AreWarmKeys count ks.items
        (own_list seat.old) (own_list seat.new)) }
    ensures list_stays { OnErr result (own_list seat.new ≡ own_list seat.old) }
{
    let mut keys = recent(rt, alloc, seat, MOST_KEYS)?;
    let number = warm_number(count, keys.len() as u32);
    keys.truncate(number as usize);
    keys.reverse();
    Ok(keys)
}
