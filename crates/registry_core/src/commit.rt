ghost use Rattle.std.specs.Prelude.{◌≡◌, IfOk, IfErr};
ghost use Rattle.searcher_table.specs.Passes.{sighted, sighted_at};
ghost use Rattle.searcher_table.specs.Registrars.{table_of, plan_of};
ghost use Rattle.view_cells.specs.Seats.{IsIdle, view_of};
ghost use Rattle.registry_core.specs.Entering.{IsBack};
ghost use Rattle.registry_core.specs.Opening.{IsCommit, IsExecuted};
ghost use Rattle.registry_core.specs.Commits.{answer_of};

use crate::caller::Caller;
use crate::change::Change;
use crate::fresh::Fresh;
use crate::locked::Locked;
use crate::writer::Writer;
use rt_edge::{Gate, Moment};
use searcher_table::{Announced, Call, Gens, OpenRefusal, Opening, Shown, Sighting};
use std::alloc::Global;
use std::sync::Wait;
use view_cells::Seat;

/// Why a commit opened no searcher.
#[derive(Drop, Debug)]
pub enum CommitRefusal {
    /// As many generations were warming as may be: these. This has a place.
    TooMany { place: u64, warming: Gens },
    /// There was room, and the last generation that there is had been opened. This has a place.
    GenerationsSpent { place: u64 },
    /// Memory was wanting. This has none.
    NoMemory,
}

// Takes the lock, executes an announced opening, and puts the lock back.
fn executed<D: Shown, U: Drop, W: Writer<D, U>, R: Wait>(
    rt: &R,
    alloc: Global,
    lock: &mut Seat<Locked<D, U, W>>,
    caller: u32,
    call: Announced<D, Change<U>>,
) -> (
    Result<Result<(Opening<D, Change<U>>, D), OpenRefusal>, Announced<D, Change<U>>>,
    Sighting<D, Change<U>>,
)
    requires idle { IsIdle lock.old }
    requires here { IsCommit (table_of (view_of lock.old).registrar.value) caller call }
    ensures back { IsBack lock.old lock.new }
    ensures table { sighted_at result.1 ≡ table_of (view_of lock.old).registrar.value }
    ensures executed { IfOk result.0 (IsExecuted (plan_of (view_of lock.old).registrar.value).setting.value W.shows
        (table_of (view_of lock.old).registrar.value) call (sighted result.1)) }
    ensures call { IfErr result.0 (λ a. a ≡ call) }
{
    let mut held = lock.take(rt);
    let result = held.value().open(alloc, caller, call);
    held.put_back();
    result
}

// What a commit is answered.
fn answered<D: Shown, U: Drop>(
    executed: Result<(Opening<D, Change<U>>, D), OpenRefusal>,
) -> Result<(u64, Fresh<D, U>), CommitRefusal>
    ensures { result ≡ answer_of executed }
{
    match executed {
        Ok((opening, own)) => {
            let place = opening.place();
            let from = None;
            Ok((place, Fresh { opening, own, from }))
        }
        Err(OpenRefusal::TooMany { place, warming }) => {
            Err(CommitRefusal::TooMany { place, warming })
        }
        Err(OpenRefusal::GenerationsSpent { place }) => {
            Err(CommitRefusal::GenerationsSpent { place })
        }
    }
}

impl<D: Shown, U: Drop, W: Writer<D, U>> Caller<D, U, W> {
    ghost use Rattle.std.specs.Prelude.{IfOk, IfErr};
    ghost use Rattle.registry_core.specs.Commits.{HasCommitted, IsNotCommitted};

    /// Announces a commit, which stands for a line, tells the gate, and has it executed under the lock: it opens the next
    /// generation, which is then warming. This gives the opening's place and the warming. It waits for the lock.
    ///
    /// # Errors
    /// [`CommitRefusal`]. Want of memory for the journal is looked at first, then whether as many are warming as may be, then
    /// whether a generation is left, and then whether the writer has memory. Where memory is wanting the commit has no entry,
    /// and is no longer announced.
    pub fn commit<R: Wait, G: Gate>(
        &mut self,
        rt: &R,
        alloc: Global,
        line: u32,
        gate: &G,
    ) -> Result<(u64, Fresh<D, U>), CommitRefusal>
        ensures opened { IfOk result (λ r. HasCommitted D.Shown W.Writer self.old self.new line r.0 r.1) }
        ensures refused { IfErr result (IsNotCommitted self.old self.new line) }
    {
        let caller = self.pass.caller();
        let call = self
            .pass
            .announce(Call::Open, Change { line, update: None });
        gate.at(caller, Moment::Announced);
        let (result, note) = executed(rt, alloc, &mut self.lock, caller, call);
        match result {
            Ok(executed) => {
                self.pass.meet(note);
                answered(executed)
            }
            Err(call) => {
                self.pass.withdraw(call);
                self.pass.meet(note);
                Err(CommitRefusal::NoMemory)
            }
        }
    }
}
