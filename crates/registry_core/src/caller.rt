ghost use Rattle.std.specs.Prelude.{◌≡◌, None};
ghost use Rattle.searcher_table.specs.Passes.{announced_of};
ghost use Rattle.view_cells.specs.Seats.{IsIdle, view_of};
ghost use Rattle.registry_core.specs.Keeping.{IsTableOf};

use crate::change::Change;
use crate::locked::Locked;
use crate::pinned::Pinned;
use crate::writer::Writer;
use searcher_table::{AcquireRefusal, Pass, Shown};
use view_cells::Seat;

/// A caller's place at a core, for one thread at a time.
#[derive(Drop)]
pub struct Caller<D: Shown, U: Drop, W: Writer<D, U>> {
    pub(crate) pass: Pass<D, Change<U>>,
    pub(crate) lock: Seat<Locked<D, U, W>>,
    ghost at_table: { IsTableOf (view_of lock) pass },
    ghost idle: { IsIdle lock },
    ghost free: { announced_of pass ≡ None },
}

/// Why an update was refused. It then has no place.
#[derive(Clone, Copy, Drop, Debug, PartialEq, Eq)]
pub enum UpdateRefusal {
    /// So many updates had been accepted, which is the most.
    Full { updates: u32 },
    /// Memory was wanting.
    NoMemory,
}

impl<D: Shown, U: Drop, W: Writer<D, U>> Caller<D, U, W> {
    ghost use Rattle.std.specs.Prelude.{◌≡◌, IfOk, IfErr};
    ghost use Rattle.registry_core.specs.Callers.{number_of, AreTogether, HasMet, IsUnchanged};
    ghost use Rattle.registry_core.specs.Holding.{HasPinned, IsNotPinned};

    /// The caller's number, from 1 on.
    pub fn number(&self) -> u32
        ensures { result ≡ number_of self.now }
    {
        self.pass.caller()
    }

    /// Sees what the other has seen, at least. It takes no memory and doesn't wait.
    pub fn meet(&mut self, other: &mut Caller<D, U, W>)
        requires { AreTogether self.old other.old }
        ensures met { HasMet self.old other.old self.new }
        ensures other { IsUnchanged other.old other.new }
    {
        let note = other.pass.note();
        self.pass.meet(note);
    }

    /// Pins what is current. It is one step, takes no memory and doesn't wait.
    ///
    /// # Errors
    /// The caller comes back with an [`AcquireRefusal`], as of the table: `Spent` exactly where it has acquired as often as
    /// it may, else `NotYet` exactly where nothing is current.
    pub fn pin(self) -> Result<Pinned<D, U, W>, (Caller<D, U, W>, AcquireRefusal)>
        ensures pinned { IfOk result (HasPinned self) }
        ensures refused { IfErr result (λ r. IsNotPinned self r.0 r.1) }
    {
        let Caller { pass, lock } = self;
        match pass.acquire() {
            Ok(pin) => Ok(Pinned { pin, lock }),
            Err((pass, why)) => Err((Caller { pass, lock }, why)),
        }
    }
}
