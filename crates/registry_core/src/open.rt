// What is done under the lock for an opening that its caller announced.
ghost use Rattle.std.specs.Prelude.{◌≡◌};
ghost use Rattle.registry_core.specs.Journal.{what_told};
ghost use Rattle.registry_core.specs.Opening.{refusal_told};

use crate::NoMemory;
use crate::change::Change;
use crate::journal::{Happened, Placed};
use crate::locked::Locked;
use crate::writer::Writer;
use searcher_table::{Announced, Gens, OpenRefusal, Opening, Shown, Sighting};
use std::alloc::Global;

// How the journal tells a refusal.
fn told<U: Drop>(why: &OpenRefusal) -> Happened<U, Gens>
    ensures { what_told result ≡ refusal_told why.now }
{
    match why {
        OpenRefusal::TooMany { place: _, warming } => Happened::TooMany(warming.again()),
        OpenRefusal::GenerationsSpent { place: _ } => Happened::Spent,
    }
}

impl<D: Shown, U: Drop, W: Writer<D, U>> Locked<D, U, W> {
    ghost use Rattle.std.specs.Prelude.{◌≡◌, ◌+◌, ◌<◌, IfOk, IfErr, OnOk, vec_len, vec_capacity};
    ghost use Rattle.searcher_table.specs.Openings.{MayOpen};
    ghost use Rattle.searcher_table.specs.Passes.{sighted, sighted_at};
    ghost use Rattle.searcher_table.specs.Registrars.{table_of, plan_of, seen_of};
    ghost use Rattle.registry_core.specs.Keeping.{IsKept};
    ghost use Rattle.registry_core.specs.Entering.{IsSameLocked, IsBeside};
    ghost use Rattle.registry_core.specs.Opening.{AreNext, IsCommit, IsOpened, IsRefused, IsExecuted};

    // Executes an opening that is refused, and tells it in the journal.
    fn refuse(&mut self, alloc: Global, caller: u32, call: Announced<D, Change<U>>) -> OpenRefusal
        requires kept { IsKept W.Writer self.old }
        requires here { IsCommit (table_of self.old.registrar) caller call }
        requires full { ¬ MayOpen self.old.registrar }
        requires room { vec_len self.old.journal + self.old.warming < vec_capacity self.old.journal }
        ensures same { IsSameLocked self.old self.new }
        ensures kept { IsKept W.Writer self.new }
        ensures refused { IsRefused call result (seen_of self.new.registrar) }
    {
        let _most = self.journal.capacity();
        let line = call.content().line;
        match self.registrar.execute_open(call, Vec::new(alloc)) {
            Ok(_opening) => unreachable!(),
            Err((why, _doors)) => {
                let what = told(&why);
                self.journal.push_reserved(Placed {
                    caller: Some(caller),
                    line: Some(line),
                    what,
                });
                why
            }
        }
    }

    // Executes an opening that is not refused, with these doors, and tells it in the journal.
    fn begin(
        &mut self,
        caller: u32,
        call: Announced<D, Change<U>>,
        doors: Vec<D>,
        own: D,
    ) -> (Opening<D, Change<U>>, D)
        requires kept { IsKept W.Writer self.old }
        requires here { IsCommit (table_of self.old.registrar) caller call }
        requires may { MayOpen self.old.registrar }
        requires doors { AreNext D.Shown W.Writer self.old.registrar doors.items own }
        requires room { vec_len self.old.journal + self.old.warming + 1 < vec_capacity self.old.journal }
        requires space { vec_len self.old.finishes + self.old.warming < vec_capacity self.old.finishes }
        ensures same { IsSameLocked self.old self.new }
        ensures kept { IsKept W.Writer self.new }
        ensures opened { IsOpened (plan_of self.old.registrar).setting.value W.shows (table_of self.old.registrar) call
            result.0 result.1 (seen_of self.new.registrar) }
    {
        let _most = self.journal.capacity();
        let line = call.content().line;
        match self.registrar.execute_open(call, doors) {
            Ok(opening) => {
                let what = Happened::Opened(opening.generation());
                self.journal.push_reserved(Placed {
                    caller: Some(caller),
                    line: Some(line),
                    what,
                });
                self.warming += 1;
                (opening, own)
            }
            Err(_refused) => unreachable!(),
        }
    }

    // Makes room for the entry of an opening, for its end, and for the ends of what is warming.
    fn reserve(&mut self) -> Result<(), NoMemory>
        requires { IsKept W.Writer self.old }
        ensures beside { IsBeside self.old self.new }
        ensures kept { IsKept W.Writer self.new }
        ensures room { OnOk result (vec_len self.new.journal + self.new.warming + 1 < vec_capacity self.new.journal) }
        ensures space { OnOk result (vec_len self.new.finishes + self.new.warming < vec_capacity self.new.finishes) }
    {
        let Ok(()) = self.journal.try_reserve(2 + self.warming as usize) else {
            return Err(NoMemory);
        };
        let Ok(()) = self.finishes.try_reserve(1 + self.warming as usize) else {
            return Err(NoMemory);
        };
        Ok(())
    }

    // Has the doors of the next opening made.
    fn doors(&mut self, alloc: Global) -> Result<(Vec<D>, D), NoMemory>
        requires { IsKept W.Writer self.old }
        ensures beside { IsBeside self.old self.new }
        ensures journal { self.new.journal ≡ self.old.journal }
        ensures finishes { self.new.finishes ≡ self.old.finishes }
        ensures kept { IsKept W.Writer self.new }
        ensures doors { IfOk result (λ made. AreNext D.Shown W.Writer self.old.registrar made.0.items made.1) }
    {
        let _registrar = &self.registrar;
        self.writer.open(alloc, self.callers)
    }

    // Executes an announced opening. The journal has room for its entry and its end before it. Where memory is wanting, the
    // call comes back.
    fn execute_open(
        &mut self,
        alloc: Global,
        caller: u32,
        call: Announced<D, Change<U>>,
    ) -> Result<Result<(Opening<D, Change<U>>, D), OpenRefusal>, Announced<D, Change<U>>>
        requires kept { IsKept W.Writer self.old }
        requires here { IsCommit (table_of self.old.registrar) caller call }
        ensures same { IsSameLocked self.old self.new }
        ensures kept { IsKept W.Writer self.new }
        ensures executed { IfOk result (IsExecuted (plan_of self.old.registrar).setting.value W.shows
            (table_of self.old.registrar) call (seen_of self.new.registrar)) }
        ensures call { IfErr result (λ a. a ≡ call) }
    {
        let Ok(()) = self.reserve() else {
            return Err(call);
        };
        if !self.registrar.may_open() {
            return Ok(Err(self.refuse(alloc, caller, call)));
        }
        let Ok((doors, own)) = self.doors(alloc) else {
            return Err(call);
        };
        Ok(Ok(self.begin(caller, call, doors, own)))
    }

    /// The same, with what the registrar has then seen.
    pub(crate) fn open(
        &mut self,
        alloc: Global,
        caller: u32,
        call: Announced<D, Change<U>>,
    ) -> (
        Result<Result<(Opening<D, Change<U>>, D), OpenRefusal>, Announced<D, Change<U>>>,
        Sighting<D, Change<U>>,
    )
        requires kept { IsKept W.Writer self.old }
        requires here { IsCommit (table_of self.old.registrar) caller call }
        ensures same { IsSameLocked self.old self.new }
        ensures kept { IsKept W.Writer self.new }
        ensures table { sighted_at result.1 ≡ table_of self.old.registrar }
        ensures executed { IfOk result.0 (IsExecuted (plan_of self.old.registrar).setting.value W.shows
            (table_of self.old.registrar) call (sighted result.1)) }
        ensures call { IfErr result.0 (λ a. a ≡ call) }
    {
        let result = self.execute_open(alloc, caller, call);
        let note = self.registrar.note();
        (result, note)
    }
}
