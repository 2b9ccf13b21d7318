// The registrar lays the doors of an opening into its slot.
//
// Of a slot that is open for none each caller's cell is at home. The registrar takes one after the other out, and what an
// earlier generation left there comes out where the new door goes in.
ghost use Rattle.std.specs.Prelude.{◌≡◌, ◌+◌, ◌<◌, ◌≤◌, [], None};
ghost use Rattle.std.specs.Arc.{arc_value};
ghost use Rattle.registry_machine.specs.Legal.{Legal};
ghost use Rattle.searcher_table.specs.declared.board.Task.TheVariants.{Filled};
ghost use Rattle.searcher_table.specs.Words.{limits};
ghost use Rattle.searcher_table.specs.Claims.{IsOpener, IsNextDoor, HasLaid, AreAlike, HasFilled};

use crate::board::{CELLS, Cell, Place, REGISTRAR, SharedTable};
use crate::plays::{Lay, Reach};
use crate::shown::Shown;

// Lays the door of the next caller.
fn lay<D: Shown, U: Drop>(
    table: &SharedTable<D, U, D::Setting, D::Docs, D::Deed>,
    place: &mut Place<D, U, D::Setting, D::Docs, D::Deed>,
    slot: u32,
    count: u32,
    door: D,
)
    requires table { place.old.table_id ≡ (arc_value table.now).shared.table_id }
    requires sized { place.old.table_id.words ≡ 1168 }
    requires opener { IsOpener (arc_value table.now).shared.key place.old.me.0 (Filled slot count) }
    requires below { slot < 70 }
    requires few { (arc_value table.now).shared.key.callers ≤ 64 }
    requires bare { place.old.me.1 ≡ [] }
    requires next { IsNextDoor D.setting D.docs D.list (arc_value table.now).shared.key place.old.me.0 count door }
    ensures table { place.new.table_id ≡ place.old.table_id }
    ensures laid { HasLaid (arc_value table.now).shared.key place.old.me.0 place.new.me.0 slot (count + 1) (D.docs door) }
    ensures bare { place.new.me.1 ≡ [] }
{
    table.shared.load::<Reach>(place, REGISTRAR);
    let cell = CELLS * slot as usize + count as usize;
    table.shared.exchange(place, cell, Cell::Full(door));
    table.shared.load::<Lay>(place, REGISTRAR);
}

// Lays a door for each caller.
pub(crate) fn fill<D: Shown, U: Drop>(
    table: &SharedTable<D, U, D::Setting, D::Docs, D::Deed>,
    place: &mut Place<D, U, D::Setting, D::Docs, D::Deed>,
    slot: u32,
    doors: Vec<D>,
)
    requires table { place.old.table_id ≡ (arc_value table.now).shared.table_id }
    requires sized { place.old.table_id.words ≡ 1168 }
    requires opener { IsOpener (arc_value table.now).shared.key place.old.me.0 (Filled slot 0) }
    requires legal { Legal (limits (arc_value table.now).shared.key) place.old.me.0.seen }
    requires hand { place.old.me.0.hand ≡ None }
    requires below { slot < 70 }
    requires some { 1 ≤ (arc_value table.now).shared.key.callers }
    requires few { (arc_value table.now).shared.key.callers ≤ 64 }
    requires bare { place.old.me.1 ≡ [] }
    requires doors { AreAlike D.setting D.docs D.list (arc_value table.now).shared.key doors.items }
    ensures table { place.new.table_id ≡ place.old.table_id }
    ensures filled { HasFilled D.docs (arc_value table.now).shared.key place.old.me.0 place.new.me.0 slot doors.items }
    ensures bare { place.new.me.1 ≡ [] }
{
    let mut count = 0;
    for door in doors {
        lay(table, place, slot, count, door);
        count += 1;
    }
}
