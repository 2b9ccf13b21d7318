ghost use Rattle.std.specs.Prelude.{◌≡◌, ◌≤◌, ◌<◌, [], Some, None};
ghost use Rattle.std.specs.Arc.{arc_value};

use crate::board::{Asked, Link, Place};
use crate::gens::Gens;
use crate::plays::Sight;
use crate::shown::Shown;

/// A call that its caller announced. It has to be executed or withdrawn.
pub struct Announced<D: Shown, U: Drop> {
    pub(crate) caller: u32,
    pub(crate) asked: Asked<U>,
    pub(crate) place: Place<D, U, D::Setting, D::Docs, D::Deed>,
    ghost in_hand: { place.me.0.hand ≡ Some (record { caller = caller; asked = asked }) },
    ghost ranged: { (1 ≤ caller) × (caller ≤ 64) },
    ghost bare: { place.me.1 ≡ [] },
}

impl<D: Shown, U: Drop> Announced<D, U> {
    ghost use Rattle.std.specs.Prelude.{◌≡◌};

    /// The content that was announced.
    pub fn content(&self) -> &U
        ensures { result.now ≡ self.now.asked.content }
    {
        &self.asked.content
    }
}

/// What a pass, a registrar or an opening has seen, for another one to meet. It has to be met.
pub struct Sighting<D: Shown, U: Drop> {
    pub(crate) place: Place<D, U, D::Setting, D::Docs, D::Deed>,
    ghost empty_handed: { place.me.0.hand ≡ None },
    ghost bare: { place.me.1 ≡ [] },
}

/// A searcher that is warming, and that its registrar can publish. One that is dropped leaves its generation warming.
#[derive(Drop)]
pub struct Opening<D: Shown, U: Drop> {
    pub(crate) generation: u32,
    // The slot that it has.
    pub(crate) slot: u32,
    // The place of its entry.
    pub(crate) at: u64,
    pub(crate) seat: Place<D, U, D::Setting, D::Docs, D::Deed>,
    // One of the registrar's spare references to the table.
    pub(crate) link: Link<D, U>,
    ghost at_table: { seat.table_id ≡ (arc_value link.table).shared.table_id },
    ghost sized: { seat.table_id.words ≡ 1168 },
    ghost warming: { seat.me.0.fresh ≡ Some (record { generation = generation; slot = slot }) },
    ghost below: { slot < 70 },
    ghost within: { generation ≤ 33554431 },
    ghost empty_handed: { seat.me.0.hand ≡ None },
    ghost bare: { seat.me.1 ≡ [] },
}

impl<D: Shown, U: Drop> Opening<D, U> {
    ghost use Rattle.std.specs.Prelude.{◌≡◌};
    ghost use Rattle.searcher_table.specs.Openings.{IsSameOpening, IsNoteOf};

    /// The generation that was opened.
    pub fn generation(&self) -> u32
        ensures { result ≡ self.now.generation }
    {
        self.generation
    }

    /// The place of the opening in the journal.
    pub fn place(&self) -> u64
        ensures { result ≡ self.now.at }
    {
        self.at
    }

    /// What the opening has seen, its own entry included, for a pass to meet. It takes no memory and doesn't wait.
    pub fn note(&mut self) -> Sighting<D, U>
        ensures opening { IsSameOpening self.old self.new }
        ensures note { IsNoteOf self.new result }
    {
        let place = self.link.table.shared.split_seat::<Sight>(&mut self.seat);
        Sighting { place }
    }
}

/// Why an opening was refused. Each refusal has its entry, whose place is told.
#[derive(Drop, Debug)]
pub enum OpenRefusal {
    /// As many generations were warming as may be: these.
    TooMany { place: u64, warming: Gens },
    /// There was room, and the last generation that there is had been opened.
    GenerationsSpent { place: u64 },
}

/// How a warming ended. Its entry has this place.
#[derive(Clone, Copy, Drop, Debug, PartialEq, Eq)]
pub enum Published {
    /// The generation is current. If one was current before, it is told with the number of its acquires.
    Registered {
        place: u64,
        settled: Option<(u32, u32)>,
    },
    /// A greater generation is current.
    Superseded {
        by: u32,
        place: u64,
    },
}
