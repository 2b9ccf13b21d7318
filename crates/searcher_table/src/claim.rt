// The registrar claims a slot for an opening.
//
// Only the registrar clears bits of the mask words, so a slot that it has found to be free stays free until it claims
// it. By the rule some slot is free whenever it may open.
ghost use Rattle.std.specs.Prelude.{◌≡◌, ◌<◌};
ghost use Rattle.std.specs.Arc.{arc_value};
ghost use Rattle.searcher_table.specs.declared.board.Task.TheVariants.{Idle, Found, Filled};
ghost use Rattle.searcher_table.specs.Claims.{IsOpener, HasRoom, HasBegun, IsForNone};

use crate::board::{MASKS, Place, SLOTS, SharedTable};
use crate::plays::{Scan, ScanOn, Take, Wipe};
use crate::shown::Shown;

// Finds a free slot.
fn find<D: Shown, U: Drop>(
    table: &SharedTable<D, U, D::Setting, D::Docs, D::Deed>,
    place: &mut Place<D, U, D::Setting, D::Docs, D::Deed>,
) -> u32
    requires table { place.old.table_id ≡ (arc_value table.now).shared.table_id }
    requires sized { place.old.table_id.words ≡ 1168 }
    requires opener { IsOpener (arc_value table.now).shared.key place.old.me.0 Idle }
    requires room { HasRoom (arc_value table.now).shared.key place.old.me.0 }
    ensures table { place.new.table_id ≡ place.old.table_id }
    ensures id { place.new.me.1 ≡ place.old.me.1 }
    ensures begun { HasBegun (arc_value table.now).shared.key place.old.me.0 place.new.me.0 (Found result) }
    ensures below { result < 128 }
{
    let word = table.shared.load::<Scan>(place, MASKS);
    if word != 0 {
        return word.trailing_zeros();
    }
    let word = table.shared.load::<ScanOn>(place, MASKS + 8);
    64 + word.trailing_zeros()
}

// Claims a free slot, whose word is then 0.
pub(crate) fn claim<D: Shown, U: Drop>(
    table: &SharedTable<D, U, D::Setting, D::Docs, D::Deed>,
    place: &mut Place<D, U, D::Setting, D::Docs, D::Deed>,
) -> u32
    requires table { place.old.table_id ≡ (arc_value table.now).shared.table_id }
    requires sized { place.old.table_id.words ≡ 1168 }
    requires opener { IsOpener (arc_value table.now).shared.key place.old.me.0 Idle }
    requires room { HasRoom (arc_value table.now).shared.key place.old.me.0 }
    ensures table { place.new.table_id ≡ place.old.table_id }
    ensures id { place.new.me.1 ≡ place.old.me.1 }
    ensures begun { HasBegun (arc_value table.now).shared.key place.old.me.0 place.new.me.0 (Filled result 0) }
    ensures free { IsForNone (arc_value table.now).shared.key place.new.me.0 result }
{
    let slot = find(table, place);
    let mask = MASKS + 8 * (slot as usize / 64);
    table
        .shared
        .fetch_and::<Take>(place, mask, !(1 << (slot % 64)));
    table
        .shared
        .store::<Wipe>(place, SLOTS + 8 * slot as usize, 0);
    slot
}
