// What is done under the lock for an update that its caller announced.
ghost use Rattle.std.specs.Prelude.{◌≡◌};
ghost use Rattle.registry_core.specs.Journal.{entry_told, by_caller, written};

use crate::caller::UpdateRefusal;
use crate::change::Change;
use crate::journal::{Happened, Placed};
use crate::locked::Locked;
use crate::writer::Writer;
use searcher_table::{Announced, Gens, Shown, Sighting};

// How the journal tells what a caller did without a searcher.
fn placed<U: Drop>(caller: u32, change: Change<U>) -> Placed<U, Gens>
    ensures { entry_told result ≡ by_caller caller change (written change.update) }
{
    let Change { line, update } = change;
    let what = match update {
        Some(update) => Happened::Written(update),
        None => Happened::Flushed,
    };
    Placed {
        caller: Some(caller),
        line: Some(line),
        what,
    }
}

impl<D: Shown, U: Drop, W: Writer<D, U>> Locked<D, U, W> {
    ghost use Rattle.std.specs.Prelude.{◌≡◌, ◌+◌, ◌<◌, Some, IsSome, IfOk, IfErr, OnOk, OnErr, length, vec_len, vec_capacity};
    ghost use Rattle.searcher_table.specs.Passes.{sighted, sighted_at};
    ghost use Rattle.searcher_table.specs.Registrars.{table_of, seen_of};
    ghost use Rattle.registry_core.specs.Journal.{updates_of};
    ghost use Rattle.registry_core.specs.Keeping.{IsAhead, IsKept};
    ghost use Rattle.registry_core.specs.Entering.{IsSameLocked, IsBeside, IsCause, IsChange, HasPlace, IsAccepted};

    // Has an update written, unless as many were accepted as may be.
    fn write(&mut self, update: &U) -> Result<(), UpdateRefusal>
        requires { IsKept W.Writer self.old }
        ensures beside { IsBeside self.old self.new }
        ensures journal { self.new.journal ≡ self.old.journal }
        ensures ahead { OnOk result (IsAhead W.Writer (Some update.now) self.new) }
        ensures few { OnOk result (length (updates_of (seen_of self.old.registrar)) < self.old.max_updates) }
        ensures kept { OnErr result (IsKept W.Writer self.new) }
        ensures cause { IfErr result (IsCause self.old.max_updates (seen_of self.old.registrar) (Some update.now)) }
    {
        if self.accepted >= self.max_updates {
            let updates = self.accepted;
            return Err(UpdateRefusal::Full { updates });
        }
        let Ok(()) = self.writer.write(update) else {
            return Err(UpdateRefusal::NoMemory);
        };
        self.accepted += 1;
        Ok(())
    }

    // Makes room for an entry of the journal and the ends of what is warming, and has the update written, where there is one.
    fn accept(&mut self, update: &Option<U>) -> Result<(), UpdateRefusal>
        requires { IsKept W.Writer self.old }
        ensures beside { IsBeside self.old self.new }
        ensures ahead { OnOk result (IsAhead W.Writer update.now self.new) }
        ensures room { OnOk result (vec_len self.new.journal + self.new.warming < vec_capacity self.new.journal) }
        ensures few { OnOk result (IsSome update.now → length (updates_of (seen_of self.old.registrar)) < self.old.max_updates) }
        ensures kept { OnErr result (IsKept W.Writer self.new) }
        ensures cause { IfErr result (IsCause self.old.max_updates (seen_of self.old.registrar) update.now) }
    {
        let Ok(()) = self.journal.try_reserve(1 + self.warming as usize) else {
            return Err(UpdateRefusal::NoMemory);
        };
        match update {
            Some(update) => self.write(update),
            None => Ok(()),
        }
    }

    // Executes a call that takes a place without a searcher, and tells it in the journal. What it writes was written.
    fn enter(&mut self, caller: u32, call: Announced<D, Change<U>>) -> u64
        requires here { IsChange (table_of self.old.registrar) caller call }
        requires ahead { IsAhead W.Writer call.asked.content.update self.old }
        requires room { vec_len self.old.journal + self.old.warming < vec_capacity self.old.journal }
        ensures same { IsSameLocked self.old self.new }
        ensures kept { IsKept W.Writer self.new }
        ensures place { HasPlace call result (updates_of (seen_of self.old.registrar)) (seen_of self.new.registrar) }
    {
        let _most = self.journal.capacity();
        let (place, change) = self.registrar.execute_update(call);
        self.journal.push_reserved(placed(caller, change));
        place
    }

    // Accepts an announced change and executes it. This gives its place, or the call back.
    fn execute(
        &mut self,
        caller: u32,
        call: Announced<D, Change<U>>,
    ) -> Result<u64, (UpdateRefusal, Announced<D, Change<U>>)>
        requires kept { IsKept W.Writer self.old }
        requires here { IsChange (table_of self.old.registrar) caller call }
        ensures same { IsSameLocked self.old self.new }
        ensures kept { IsKept W.Writer self.new }
        ensures accepted { IfOk result (λ at. IsAccepted call at self.old.max_updates (seen_of self.new.registrar)) }
        ensures cause { IfErr result (λ r. IsCause self.old.max_updates (seen_of self.new.registrar)
            call.asked.content.update r.0) }
        ensures call { IfErr result (λ r. r.1 ≡ call) }
    {
        let accepted = self.accept(&call.content().update);
        match accepted {
            Ok(()) => Ok(self.enter(caller, call)),
            Err(why) => Err((why, call)),
        }
    }

    /// The same, with what the registrar has then seen.
    pub(crate) fn change(
        &mut self,
        caller: u32,
        call: Announced<D, Change<U>>,
    ) -> (
        Result<u64, (UpdateRefusal, Announced<D, Change<U>>)>,
        Sighting<D, Change<U>>,
    )
        requires kept { IsKept W.Writer self.old }
        requires here { IsChange (table_of self.old.registrar) caller call }
        ensures same { IsSameLocked self.old self.new }
        ensures kept { IsKept W.Writer self.new }
        ensures table { sighted_at result.1 ≡ table_of self.old.registrar }
        ensures accepted { IfOk result.0 (λ at. IsAccepted call at self.old.max_updates (sighted result.1)) }
        ensures cause { IfErr result.0 (λ r. IsCause self.old.max_updates (sighted result.1)
            call.asked.content.update r.0) }
        ensures call { IfErr result.0 (λ r. r.1 ≡ call) }
    {
        let result = self.execute(caller, call);
        let note = self.registrar.note();
        (result, note)
    }
}
