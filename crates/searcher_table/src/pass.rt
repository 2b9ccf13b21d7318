ghost use Rattle.std.specs.Prelude.{◌≡◌, ◌≤◌, [], Some, None, count_by};
ghost use Rattle.std.specs.Arc.{arc_value};
ghost use Rattle.registry_machine.specs.Callers.{mine};
ghost use Rattle.searcher_table.specs.declared.board.Task.TheVariants.{Idle};
ghost use Rattle.searcher_table.specs.Counts.{is_acquire, pinned};

use crate::board::{Asked, CALLS, Call, Cell, Place, SharedTable};
use crate::plays::{Announce, Gather, HandOut, Look, Withdraw};
use crate::shown::Shown;
use crate::tokens::{Announced, Sighting};

/// A caller's place at a table, for one thread at a time.
#[derive(Drop)]
pub struct Pass<D: Shown, U: Drop> {
    pub(crate) caller: u32,
    // How often the caller has acquired, and may.
    pub(crate) made: u32,
    pub(crate) budget: u32,
    pub(crate) place: Place<D, U, D::Setting, D::Docs, D::Deed>,
    pub(crate) table: SharedTable<D, U, D::Setting, D::Docs, D::Deed>,
    ghost at_table: { place.table_id ≡ (arc_value table).shared.table_id },
    ghost sized: { place.table_id.words ≡ 1168 },
    ghost told: { place.me.0.plan ≡ Some (arc_value table).shared.key },
    ghost numbered: { place.me.0.caller ≡ caller },
    ghost ranged: { (1 ≤ caller) × (caller ≤ 64) },
    ghost own: { place.me.0.mine ≡ mine caller place.me.0.seen },
    ghost tried: { made ≡ count_by is_acquire place.me.0.mine },
    ghost most: { budget ≡ (arc_value table).shared.key.budget },
    ghost within: { made ≤ budget },
    ghost unpinned: { pinned caller place.me.0.mine ≡ None },
    ghost empty_handed: { place.me.0.hand ≡ None },
    ghost idle: { place.me.0.task ≡ Idle },
    ghost none_back: { place.me.0.back ≡ [] },
    ghost bare: { place.me.1 ≡ [] },
}

impl<D: Shown, U: Drop> Pass<D, U> {
    ghost use Rattle.std.specs.Prelude.{◌≡◌, ◌+◌, ◌*◌, ◌<◌, None};
    ghost use Rattle.searcher_table.specs.Passes.{announced_of, table_of, sighted_at};
    ghost use Rattle.searcher_table.specs.Passes.{IsUnchanged, HasLooked, HasAnnounced, HasWithdrawn};
    ghost use Rattle.searcher_table.specs.Passes.{IsAnnouncedBy, IsOwnCall, IsSightingOf, HasMet};

    /// The caller's number, from 1 on.
    pub fn caller(&self) -> u32
        ensures { result ≡ self.now.caller }
    {
        self.caller
    }

    // The word in which this caller announces.
    fn word(&self) -> usize
        ensures { (result ≡ 640 + 8 * self.now.caller) × (result < 1168) }
    {
        CALLS + 8 * self.caller as usize
    }

    /// Sees the table's history so far. It is one load, takes no memory and doesn't wait.
    pub fn look(&mut self)
        ensures { HasLooked self.old self.new }
    {
        let word = self.word();
        self.table.shared.load::<Look>(&mut self.place, word);
    }

    /// Announces a call, for a registrar to execute. It is one step, takes no memory and doesn't wait.
    pub fn announce(&mut self, call: Call, content: U) -> Announced<D, U>
        requires { announced_of self.old ≡ None }
        ensures pass { HasAnnounced self.old self.new (record { call = call; content = content }) }
        ensures call { IsAnnouncedBy self.new (record { call = call; content = content }) result }
    {
        let word = self.word();
        let shared = &self.table.shared;
        let code = call.code();
        let said = Cell::Said(Asked { call, content });
        shared.compare_exchange_with::<Announce>(&mut self.place, word, 0, code, &said);
        let place = shared.split_seat::<HandOut>(&mut self.place);
        Announced {
            caller: self.caller,
            asked: said.asked(),
            place,
        }
    }

    /// Takes an announced call back, which then has no entry, and gives its content. It is one step, takes no memory
    /// and doesn't wait.
    pub fn withdraw(&mut self, call: Announced<D, U>) -> U
        requires { IsOwnCall self.old call }
        ensures pass { HasWithdrawn self.old self.new }
        ensures content { result ≡ call.asked.content }
    {
        let word = self.word();
        let Announced {
            caller: _,
            asked,
            place,
        } = call;
        let shared = &self.table.shared;
        shared.join_seat::<Gather>(&mut self.place, place);
        shared.store::<Withdraw>(&mut self.place, word, 0);
        asked.content
    }

    /// What this pass has seen, for another one to meet. It takes no memory and doesn't wait.
    pub fn note(&mut self) -> Sighting<D, U>
        ensures pass { IsUnchanged self.old self.new }
        ensures note { IsSightingOf self.new result }
    {
        let place = self.table.shared.split_seat::<HandOut>(&mut self.place);
        Sighting { place }
    }

    /// Sees the table's history so far, what the sighting carries in any case. It is one load, takes no memory and
    /// doesn't wait.
    pub fn meet(&mut self, note: Sighting<D, U>)
        requires { sighted_at note ≡ table_of self.old }
        ensures { HasMet self.old self.new note }
    {
        let word = self.word();
        let Sighting { place } = note;
        let shared = &self.table.shared;
        shared.join_seat::<Gather>(&mut self.place, place);
        shared.load::<Look>(&mut self.place, word);
    }
}
