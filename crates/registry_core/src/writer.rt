ghost use Rattle.std.specs.Prelude.{◌≡◌, ◌≤◌, ◌++◌, ◌∷◌, [], List, IfOk, OnOk, OnErr};
ghost use Rattle.registry_core.specs.Making.{AreMade};

use crate::NoMemory;
use searcher_table::Shown;
use std::alloc::Global;

/// What writes the updates that were accepted, one after another, and makes what an opening shows of them.
pub trait Writer<D: Shown, U: Drop>: Drop {
    /// The updates that it has taken, in their order.
    ghost taken: { Self → List U };

    /// With what it makes doors.
    ghost setting: { Self → D.Setting };

    /// Whether an opening after these updates shows these documents.
    ghost shows: { List U → D.Docs → Type 0 };

    /// Takes an update.
    ///
    /// # Errors
    /// [`NoMemory`]; nothing is then taken.
    fn write(&mut self, update: &U) -> Result<(), NoMemory>
        ensures taken { OnOk result (taken self.new ≡ taken self.old ++ update.now ∷ []) }
        ensures stays { OnErr result (taken self.new ≡ taken self.old) }
        ensures setting { setting self.new ≡ setting self.old };

    /// Makes a door for each caller, in the order of their numbers, and one for the warming. They show one list of
    /// documents, that of an opening after the updates so far.
    ///
    /// # Errors
    /// [`NoMemory`].
    fn open(&mut self, alloc: Global, callers: u32) -> Result<(Vec<D>, D), NoMemory>
        requires { (1 ≤ callers) × (callers ≤ 64) }
        ensures taken { taken self.new ≡ taken self.old }
        ensures setting { setting self.new ≡ setting self.old }
        ensures doors { IfOk result (λ made. AreMade D.Shown (setting self.old) (shows (taken self.old)) callers
            made.0.items made.1) };
}
