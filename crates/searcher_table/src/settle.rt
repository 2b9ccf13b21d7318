// The registrar settles the slot of a generation that is neither warming nor current any more.
ghost use Rattle.std.specs.Prelude.{◌≡◌, ◌<◌};
ghost use Rattle.std.specs.Arc.{arc_value};
ghost use Rattle.searcher_table.specs.declared.board.Task.TheVariants.{Unsettled};
ghost use Rattle.searcher_table.specs.Claims.{IsOpener};
ghost use Rattle.searcher_table.specs.Publishing.{HasSettled};

use crate::board::{MASKS, Place, SLOT, SLOTS, SharedTable};
use crate::plays::{Free, Settle};
use crate::shown::Shown;

// Tells the acquires of the generation, so many, to its slot's word. Where there were as many releases, nobody uses it
// any more, and the slot is freed.
pub(crate) fn settle<D: Shown, U: Drop>(
    table: &SharedTable<D, U, D::Setting, D::Docs, D::Deed>,
    place: &mut Place<D, U, D::Setting, D::Docs, D::Deed>,
    slot: u32,
    generation: u32,
    total: u32,
)
    requires table { place.old.table_id ≡ (arc_value table.now).shared.table_id }
    requires sized { place.old.table_id.words ≡ 1168 }
    requires begun { IsOpener (arc_value table.now).shared.key place.old.me.0 (Unsettled slot generation total) }
    requires below { slot < 128 }
    requires few { total < 4294967295 }
    ensures table { place.new.table_id ≡ place.old.table_id }
    ensures id { place.new.me.1 ≡ place.old.me.1 }
    ensures settled { HasSettled (arc_value table.now).shared.key place.old.me.0 place.new.me.0 generation total }
{
    let word = SLOTS + 8 * slot as usize;
    let found = table
        .shared
        .fetch_add::<Settle>(place, word, (u64::from(total) + 1) * SLOT);
    if found != u64::from(total) {
        return;
    }
    let mask = MASKS + 8 * (slot as usize / 64);
    table.shared.fetch_or::<Free>(place, mask, 1 << (slot % 64));
}
