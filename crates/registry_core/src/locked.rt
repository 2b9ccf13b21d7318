use crate::NoMemory;
use crate::caller::UpdateRefusal;
use crate::change::Change;
use crate::ended::{Ended, Finish};
use crate::journal::{Happened, Placed};
use crate::writer::Writer;
use searcher_table::{Announced, Gens, Registrar, Shown, Sighting};
use std::snapshot::Snapshot;
use view_cells::Fits;

/// What the seats of a core's lock name: its table, by the registrar as it was at first, and the most updates.
#[derive(Drop)]
pub struct Terms<D: Shown, U: Drop> {
    pub(crate) registrar: Snapshot<Registrar<D, Change<U>>>,
    pub(crate) max_updates: u32,
}

/// What lies under the core's lock: the registrar, what writes, and the journal of what they did.
#[derive(Drop)]
pub struct Locked<D: Shown, U: Drop, W: Writer<D, U>> {
    pub(crate) registrar: Registrar<D, Change<U>>,
    pub(crate) writer: W,
    pub(crate) journal: Vec<Placed<U, Gens>>,
    // The warmings that callers ended.
    pub(crate) finishes: Vec<Ended>,
    // How many callers there are.
    pub(crate) callers: u32,
    // How many generations are warming. There is room for their ends.
    pub(crate) warming: u32,
    // How many updates were accepted, and may be.
    pub(crate) accepted: u32,
    pub(crate) max_updates: u32,
}

impl<D: Shown, U: Drop, W: Writer<D, U>> Fits for Locked<D, U, W> {
    type View = Terms<D, U>;

    type Entry = Finish;

    ghost use Rattle.registry_core.specs.Finishes.{finishes_of};
    ghost use Rattle.registry_core.specs.Keeping.{FitsTerms};

    ghost fits = { FitsTerms W.Writer };

    ghost entries = { λ l n. finishes_of n l.finishes.items };
}
