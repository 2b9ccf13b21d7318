ghost use Rattle.std.specs.Prelude.{◌≡◌, IfOk, IfErr};
ghost use Rattle.searcher_table.specs.Passes.{sighted, sighted_at};
ghost use Rattle.searcher_table.specs.Registrars.{table_of};
ghost use Rattle.view_cells.specs.Seats.{IsIdle, view_of};
ghost use Rattle.registry_core.specs.Entering.{IsBack, IsChange, IsAccepted, IsCause};

use crate::NoMemory;
use crate::caller::{Caller, UpdateRefusal};
use crate::change::Change;
use crate::locked::Locked;
use crate::writer::Writer;
use rt_edge::{Gate, Moment};
use searcher_table::{Announced, Call, Shown, Sighting};
use std::sync::Wait;
use view_cells::Seat;

// Takes the lock, executes an announced change, and puts the lock back.
fn executed<D: Shown, U: Drop, W: Writer<D, U>, R: Wait>(
    rt: &R,
    lock: &mut Seat<Locked<D, U, W>>,
    caller: u32,
    call: Announced<D, Change<U>>,
) -> (
    Result<u64, (UpdateRefusal, Announced<D, Change<U>>)>,
    Sighting<D, Change<U>>,
)
    requires idle { IsIdle lock.old }
    requires here { IsChange (table_of (view_of lock.old).registrar.value) caller call }
    ensures back { IsBack lock.old lock.new }
    ensures table { sighted_at result.1 ≡ table_of (view_of lock.old).registrar.value }
    ensures accepted { IfOk result.0 (λ at. IsAccepted call at (view_of lock.old).max_updates (sighted result.1)) }
    ensures cause { IfErr result.0 (λ r. IsCause (view_of lock.old).max_updates (sighted result.1)
        call.asked.content.update r.0) }
    ensures call { IfErr result.0 (λ r. r.1 ≡ call) }
{
    let mut held = lock.take(rt);
    let result = held.value().change(caller, call);
    held.put_back();
    result
}

impl<D: Shown, U: Drop, W: Writer<D, U>> Caller<D, U, W> {
    ghost use Rattle.std.specs.Prelude.{Some, None, IfOk, IfErr, OnErr, []};
    ghost use Rattle.registry_machine.specs.declared.entry.Entry.TheVariants.{Update as Updated};
    ghost use Rattle.registry_core.specs.Callers.{number_of, HasEntered, HasProlonged, HasChanged, IsNotChanged, IsNotUpdated};

    // Announces a change, tells the gate, and has it executed under the lock.
    fn change<R: Wait, G: Gate>(
        &mut self,
        rt: &R,
        content: Change<U>,
        gate: &G,
    ) -> Result<u64, UpdateRefusal>
        ensures changed { IfOk result (HasChanged self.old self.new content) }
        ensures refused { IfErr result (IsNotChanged self.old self.new content.update) }
    {
        let caller = self.pass.caller();
        let call = self.pass.announce(Call::Update, content);
        gate.at(caller, Moment::Announced);
        let (result, note) = executed(rt, &mut self.lock, caller, call);
        match result {
            Ok(place) => {
                self.pass.meet(note);
                Ok(place)
            }
            Err((why, call)) => {
                self.pass.withdraw(call);
                self.pass.meet(note);
                Err(why)
            }
        }
    }

    /// Announces an update, which stands for a line, tells the gate, and has it executed under the lock. This gives its
    /// place. It waits for the lock.
    ///
    /// # Errors
    /// [`UpdateRefusal`]; the update then has no entry, and is no longer announced. Want of memory for the journal is
    /// looked at first, then whether as many were accepted as may be, and then whether the writer has memory.
    pub fn update<R: Wait, G: Gate>(
        &mut self,
        rt: &R,
        line: u32,
        update: U,
        gate: &G,
    ) -> Result<u64, UpdateRefusal>
        ensures updated { IfOk result (HasChanged self.old self.new (record { line = line; update = Some update })) }
        ensures refused { IfErr result (IsNotUpdated self.old self.new) }
    {
        let update = Some(update);
        self.change(rt, Change { line, update }, gate)
    }

    /// Takes a place for a commit that opens no searcher, as `update` does for an update. This gives the place. It waits
    /// for the lock.
    ///
    /// # Errors
    /// [`NoMemory`]; the commit then has no entry.
    pub fn flush<R: Wait, G: Gate>(&mut self, rt: &R, line: u32, gate: &G) -> Result<u64, NoMemory>
        ensures flushed { IfOk result (HasEntered self.old self.new
            (Updated (number_of self.old) (record { line = line; update = None }))) }
        ensures refused { OnErr result (HasProlonged self.old self.new []) }
    {
        match self.change(rt, Change { line, update: None }, gate) {
            Ok(place) => Ok(place),
            Err(UpdateRefusal::NoMemory) => Err(NoMemory),
            Err(UpdateRefusal::Full { updates: _ }) => unreachable!(),
        }
    }
}
