ghost use Rattle.std.specs.Prelude.{◌≡◌, ◌+◌, ◌≤◌, true, [], Some, None, count_by, length, vec_capacity};
ghost use Rattle.std.specs.Arc.{arc_value};
ghost use Rattle.std.proofs.Props.{props};
ghost use Rattle.registry_machine.specs.Entries.{has_place};
ghost use Rattle.searcher_table.specs.Spares.{AreAt, AreRooms};
ghost use Rattle.searcher_table.specs.Words.{limits};
ghost use Rattle.searcher_table.specs.Warming.{listed, last_in, current_in, warming_in};
ghost use Rattle.searcher_table.specs.declared.board.Task.TheVariants.{Idle};

use crate::board::{
    CALLS, CURRENT, GENERATION, LAST_GENERATION, Link, Place, REGISTRAR, SLOT, SharedTable,
};
use crate::claim::claim;
use crate::fill::fill;
use crate::gens::Gens;
use crate::pass::Pass;
use crate::plays::{Execute, Gather, HandOut, Look, OpenNext, Peek, TakeBack};
use crate::shown::Shown;
use crate::tokens::{Announced, OpenRefusal, Opening, Sighting};

/// Who executes the calls that are announced at a table, one after another.
#[derive(Drop)]
pub struct Registrar<D: Shown, U: Drop> {
    // How many entries with a place there are.
    pub(crate) places: u64,
    // The greatest number of warming generations.
    pub(crate) max_warming: u32,
    // How many callers there are.
    pub(crate) callers: u32,
    // The generation that was opened last.
    pub(crate) last: u32,
    // The one that is current, or 0.
    pub(crate) current: u32,
    // Those that are warming.
    pub(crate) warming: Gens,
    pub(crate) place: Place<D, U, D::Setting, D::Docs, D::Deed>,
    pub(crate) table: SharedTable<D, U, D::Setting, D::Docs, D::Deed>,
    // References to the table for the openings that may be warming at once.
    pub(crate) spare: Vec<Link<D, U>>,
    // Of the table's end, a row for the doors of each slot, and the list of these rows.
    pub(crate) rows: Vec<Vec<D>>,
    pub(crate) closed: Vec<Vec<D>>,
    ghost at_table: { place.table_id ≡ (arc_value table).shared.table_id },
    ghost sized: { place.table_id.words ≡ 1168 },
    ghost told: { place.me.0.plan ≡ Some (arc_value table).shared.key },
    ghost role: { place.me.0.registrar ≡ true },
    ghost counted: { places ≡ count_by has_place place.me.0.seen },
    ghost most: { max_warming ≡ (arc_value table).shared.key.max_warming },
    ghost few: { max_warming ≤ 4 },
    ghost of_callers: { callers ≡ (arc_value table).shared.key.callers },
    ghost some: { 1 ≤ (arc_value table).shared.key.callers },
    ghost few_callers: { (arc_value table).shared.key.callers ≤ 64 },
    ghost last_is: { last ≡ last_in (arc_value table).shared.key place.me.0.seen },
    ghost current_is: { current ≡ current_in (arc_value table).shared.key place.me.0.seen },
    ghost warming_are: { listed warming ≡ warming_in (arc_value table).shared.key place.me.0.seen },
    ghost spares: { AreAt place.table_id spare.items },
    ghost held: { vec_capacity spare ≡ max_warming },
    ghost enough: { length spare.items + length (listed warming) ≡ max_warming },
    ghost within: { last ≤ 33554431 },
    ghost roomy: { AreRooms callers rows.items } by { Prim.hlevel props },
    ghost slots: { length rows.items ≡ (limits (arc_value table).shared.key).slots },
    ghost unclosed: { closed.items ≡ [] },
    ghost room: { (limits (arc_value table).shared.key).slots ≤ vec_capacity closed },
    ghost idle: { place.me.0.task ≡ Idle },
    ghost empty_handed: { place.me.0.hand ≡ None },
    ghost bare: { place.me.1 ≡ [] },
}

impl<D: Shown, U: Drop> Registrar<D, U> {
    ghost use Rattle.std.specs.Prelude.{◌≡◌, ◌<◌, None, IfOk, IfErr, IsTrue};
    ghost use Rattle.searcher_table.specs.Openings.{MayOpen, warming_of, AreDoors, IsOpenHere, HasOpened, IsRefused};
    ghost use Rattle.searcher_table.specs.Passes.{sighted_at, announced_of, table_of as table_of_pass};
    ghost use Rattle.searcher_table.specs.Registrars.{table_of, places_of, MayAnswer, answer_to, HasEntry};
    ghost use Rattle.searcher_table.specs.Registrars.{IsUnchanged, IsSightingOf, HasLooked, HasMet, current_of};
    ghost use Rattle.searcher_table.specs.Registrars.{IsUpdateHere, HasUpdated, HasTakenBack};

    /// Executes an announced update: it has its entry, whose place this gives with the content. It is one step, takes
    /// no memory and doesn't wait.
    pub fn execute_update(&mut self, call: Announced<D, U>) -> (u64, U)
        requires call { IsUpdateHere self.old call }
        requires room { places_of self.old < 18446744073709551615 }
        ensures entry { HasUpdated self.old self.new call }
        ensures place { result.0 ≡ places_of self.old }
        ensures content { result.1 ≡ call.asked.content }
    {
        self.answer(call)
    }

    /// Whether an opening that is executed now is not refused.
    pub fn may_open(&self) -> bool
        ensures yes { IsTrue result → MayOpen self.now }
        ensures no { MayOpen self.now → IsTrue result }
    {
        self.warming.get().len() < self.max_warming as usize && self.last < LAST_GENERATION
    }

    /// The generations that are warming after what it has seen. It takes no memory and doesn't wait.
    pub fn warming(&self) -> Gens
        ensures { listed result ≡ warming_of self.now }
    {
        self.warming.again()
    }

    /// Executes an announced opening: it opens the next generation, which is then warming, with these doors for the
    /// callers. It takes no memory and doesn't wait.
    ///
    /// # Errors
    /// [`OpenRefusal`]: `TooMany` exactly where as many generations are warming as may be, else `GenerationsSpent`
    /// exactly where the last one was opened. The doors come back.
    pub fn execute_open(
        &mut self,
        call: Announced<D, U>,
        doors: Vec<D>,
    ) -> Result<Opening<D, U>, (OpenRefusal, Vec<D>)>
        requires call { IsOpenHere self.old call }
        requires room { places_of self.old < 18446744073709551615 }
        requires fit { MayOpen self.old → AreDoors D.setting D.docs D.list self.old doors.items }
        ensures opened { IfOk result (λ o. HasOpened D.docs self.old self.new call doors.items o) }
        ensures refused { IfErr result (λ r. IsRefused self.old self.new call r.0) }
        ensures doors { IfErr result (λ r. r.1 ≡ doors) }
    {
        if self.warming.get().len() >= self.max_warming as usize {
            let warming = self.warming.again();
            let (place, _content) = self.answer(call);
            return Err((OpenRefusal::TooMany { place, warming }, doors));
        }
        if self.last >= LAST_GENERATION {
            let (place, _content) = self.answer(call);
            return Err((OpenRefusal::GenerationsSpent { place }, doors));
        }
        Ok(self.open(call, doors))
    }

    // Gives a call that opens nothing its entry. This gives the entry's place, and the content.
    fn answer(&mut self, call: Announced<D, U>) -> (u64, U)
        requires table { call.place.table_id ≡ table_of self.old }
        requires may { MayAnswer self.old call }
        requires room { places_of self.old < 18446744073709551615 }
        ensures entry { HasEntry self.old self.new call (answer_to self.old call) }
        ensures place { result.0 ≡ places_of self.old }
        ensures content { result.1 ≡ call.asked.content }
    {
        let Announced {
            caller,
            asked,
            place,
        } = call;
        let word = CALLS + 8 * caller as usize;
        let shared = &self.table.shared;
        shared.join_seat::<Gather>(&mut self.place, place);
        shared.store::<Execute>(&mut self.place, word, 0);
        let at = self.places;
        self.places += 1;
        (at, asked.content)
    }

    // Opens the next generation.
    fn open(&mut self, call: Announced<D, U>, doors: Vec<D>) -> Opening<D, U>
        requires call { IsOpenHere self.old call }
        requires room { places_of self.old < 18446744073709551615 }
        requires may { MayOpen self.old }
        requires doors { AreDoors D.setting D.docs D.list self.old doors.items }
        ensures { HasOpened D.docs self.old self.new call doors.items result }
    {
        let Some(link) = self.spare.pop() else {
            unreachable!()
        };
        let Announced {
            caller,
            asked: _asked,
            place,
        } = call;
        let slot = claim(&self.table, &mut self.place);
        fill(&self.table, &mut self.place, slot, doors);
        let word = CALLS + 8 * caller as usize;
        let shared = &self.table.shared;
        shared.join_seat::<Gather>(&mut self.place, place);
        shared.compare_exchange::<OpenNext>(&mut self.place, word, 1, 0);
        let seat = shared.split_seat::<HandOut>(&mut self.place);
        let at = self.places;
        self.places += 1;
        self.last += 1;
        self.warming.add(self.last);
        Opening {
            generation: self.last,
            slot,
            at,
            seat,
            link,
        }
    }

    /// What the registrar has seen, for a pass to meet. It takes no memory and doesn't wait.
    pub fn note(&mut self) -> Sighting<D, U>
        ensures registrar { IsUnchanged self.old self.new }
        ensures note { IsSightingOf self.new result }
    {
        let place = self.table.shared.split_seat::<HandOut>(&mut self.place);
        Sighting { place }
    }

    /// Sees the table's history so far, what the sighting carries in any case. It is one load, takes no memory and
    /// doesn't wait.
    pub fn meet(&mut self, note: Sighting<D, U>)
        requires { sighted_at note ≡ table_of self.old }
        ensures { HasMet self.old self.new note }
    {
        let Sighting { place } = note;
        let shared = &self.table.shared;
        shared.join_seat::<Gather>(&mut self.place, place);
        shared.load::<Look>(&mut self.place, REGISTRAR);
    }

    /// The generation that is current, with the number of its acquires so far; none where nothing is. It is one load,
    /// takes no memory and doesn't wait.
    pub fn current(&mut self) -> Option<(u32, u32)>
        ensures registrar { HasLooked self.old self.new }
        ensures current { result ≡ current_of self.new }
    {
        let word = self.table.shared.load::<Peek>(&mut self.place, CURRENT);
        if word < GENERATION {
            return None;
        }
        Some(((word / GENERATION) as u32, (word % SLOT) as u32))
    }

    /// Takes a pass back, whose caller's entries the registrar then keeps. It takes no memory and doesn't wait.
    pub fn take_back(&mut self, pass: Pass<D, U>)
        requires table { table_of_pass pass ≡ table_of self.old }
        requires none { announced_of pass ≡ None }
        ensures { HasTakenBack self.old self.new pass }
    {
        let Pass {
            caller: _,
            made: _,
            budget: _,
            place,
            table: _,
        } = pass;
        self.table
            .shared
            .join_seat::<TakeBack>(&mut self.place, place);
    }
}
