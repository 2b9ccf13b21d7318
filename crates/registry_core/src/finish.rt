ghost use Rattle.std.specs.Prelude.{◌≡◌, ◌++◌, ◌∷◌, []};
ghost use Rattle.searcher_table.specs.Passes.{sighted, sighted_at};
ghost use Rattle.searcher_table.specs.Registrars.{table_of};
ghost use Rattle.view_cells.specs.Seats.{IsIdle, view_of, own_list, IsSameSeat};
ghost use Rattle.registry_core.specs.Freshness.{table_of as table_of_fresh, generation_of};
ghost use Rattle.registry_core.specs.Journal.{what_told};
ghost use Rattle.registry_core.specs.Finishing.{IsEnd, end_of, place_of, finish_of};
ghost use Rattle.registry_core.specs.Publications.{published_told, finished_by};

use crate::caller::Caller;
use crate::change::Change;
use crate::ended::{Ended, Finish};
use crate::fresh::Fresh;
use crate::journal::{Happened, Placed};
use crate::locked::Locked;
use crate::writer::Writer;
use searcher_table::{Gens, Published, Shown, Sighting};
use std::sync::Wait;
use view_cells::Seat;

/// How a warming ended. Its entry has this place.
#[derive(Clone, Copy, Drop, Debug, PartialEq, Eq)]
pub enum Finished {
    /// The generation is current.
    Registered { place: u64 },
    /// It was given up, since a greater generation was current.
    Superseded { by: u32, place: u64 },
}

// How the journal tells the end of a warming.
fn told<U: Drop>(generation: u32, published: Published) -> Happened<U, Gens>
    ensures { what_told result ≡ published_told generation published }
{
    match published {
        Published::Registered {
            place: _,
            settled: _,
        } => Happened::Registered(generation),
        Published::Superseded { by, place: _ } => Happened::Superseded { generation, by },
    }
}

// What a caller is answered.
fn answered(published: Published) -> Finished
    ensures { result ≡ finished_by published }
{
    match published {
        Published::Registered { place, settled: _ } => Finished::Registered { place },
        Published::Superseded { by, place } => Finished::Superseded { by, place },
    }
}

impl<D: Shown, U: Drop, W: Writer<D, U>> Locked<D, U, W> {
    ghost use Rattle.searcher_table.specs.Registrars.{seen_of};
    ghost use Rattle.registry_core.specs.Keeping.{IsKept};
    ghost use Rattle.registry_core.specs.Finishing.{HasEndedOne};

    // Ends a warming for the caller of this seat, and tells it in the journal.
    fn publish(&mut self, seat: u32, fresh: Fresh<D, U>) -> Finished
        requires kept { IsKept W.Writer self.old }
        requires here { table_of_fresh fresh ≡ table_of self.old.registrar }
        ensures one { HasEndedOne self.old self.new seat (finish_of fresh) }
        ensures kept { IsKept W.Writer self.new }
        ensures ended { IsEnd (end_of (D.list fresh.own) fresh result) (place_of result) (seen_of self.old.registrar)
            (seen_of self.new.registrar) }
    {
        let _most = self.journal.capacity();
        let Fresh { opening, own, from } = fresh;
        let generation = opening.generation();
        let published = self.registrar.publish(opening, &own);
        let what = told(generation, published);
        self.journal.push_reserved(Placed {
            caller: None,
            line: None,
            what,
        });
        let finish = Finish { generation, from };
        self.finishes.push_reserved(Ended { seat, finish });
        self.warming = self.registrar.warming().get().len() as u32;
        answered(published)
    }

    /// Ends a warming for the caller of this seat, past what the note carries. This gives what the registrar has then seen.
    pub(crate) fn finish(
        &mut self,
        seat: u32,
        note: Sighting<D, Change<U>>,
        fresh: Fresh<D, U>,
    ) -> (Finished, Sighting<D, Change<U>>)
        requires kept { IsKept W.Writer self.old }
        requires table { sighted_at note ≡ table_of self.old.registrar }
        requires here { table_of_fresh fresh ≡ table_of self.old.registrar }
        ensures one { HasEndedOne self.old self.new seat (finish_of fresh) }
        ensures kept { IsKept W.Writer self.new }
        ensures table { sighted_at result.1 ≡ table_of self.old.registrar }
        ensures ended { IsEnd (end_of (D.list fresh.own) fresh result.0) (place_of result.0) (sighted note)
            (sighted result.1) }
    {
        self.registrar.meet(note);
        let finished = self.publish(seat, fresh);
        let note = self.registrar.note();
        (finished, note)
    }
}

// Takes the lock, ends a warming, and puts the lock back.
fn under_lock<D: Shown, U: Drop, W: Writer<D, U>, R: Wait>(
    rt: &R,
    lock: &mut Seat<Locked<D, U, W>>,
    note: Sighting<D, Change<U>>,
    fresh: Fresh<D, U>,
) -> (Finished, Sighting<D, Change<U>>)
    requires idle { IsIdle lock.old }
    requires table { sighted_at note ≡ table_of (view_of lock.old).registrar.value }
    requires here { table_of_fresh fresh ≡ table_of (view_of lock.old).registrar.value }
    ensures seat { IsSameSeat lock.old lock.new }
    ensures idle { IsIdle lock.new }
    ensures own { own_list lock.new ≡ own_list lock.old ++ finish_of fresh ∷ [] }
    ensures table { sighted_at result.1 ≡ table_of (view_of lock.old).registrar.value }
    ensures ended { IsEnd (end_of (D.list fresh.own) fresh result.0) (place_of result.0) (sighted note)
        (sighted result.1) }
{
    let seat = lock.number();
    let mut held = lock.take(rt);
    let result = held.value().finish(seat, note, fresh);
    held.put_back();
    result
}

impl<D: Shown, U: Drop, W: Writer<D, U>> Caller<D, U, W> {
    ghost use Rattle.registry_core.specs.Commits.{IsFreshAt};
    ghost use Rattle.registry_core.specs.Finishing.{HasFinished};

    /// Ends a warming under the lock: its generation is current from now on, unless a greater one is. The entry has the list
    /// of its own door. It takes no memory and waits for the lock.
    pub fn finish<R: Wait>(&mut self, rt: &R, fresh: Fresh<D, U>) -> Finished
        requires here { IsFreshAt self.old fresh }
        ensures { HasFinished D.list self.old self.new fresh result }
    {
        let note = self.pass.note();
        let (finished, note) = under_lock(rt, &mut self.lock, note, fresh);
        self.pass.meet(note);
        finished
    }
}
