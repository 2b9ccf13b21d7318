use crate::change::Change;
use searcher_table::{Opening, Shown};

/// A searcher that is warming, with the door by which it is warmed. One that is dropped leaves its generation warming.
#[derive(Drop)]
pub struct Fresh<D: Shown, U: Drop> {
    pub(crate) opening: Opening<D, Change<U>>,
    pub(crate) own: D,
    // The generation and the ticket from which it was warmed.
    pub(crate) from: Option<(u32, u32)>,
}

impl<D: Shown, U: Drop> Fresh<D, U> {
    ghost use Rattle.std.specs.Prelude.{◌≡◌};
    ghost use Rattle.std.specs.Borrow.{sem};
    ghost use Rattle.registry_core.specs.Freshness.{HasNoted};
    ghost use Rattle.registry_core.specs.Lending.{lends_own};

    /// The generation that was opened.
    pub fn generation(&self) -> u32
        ensures { result ≡ self.now.opening.generation }
    {
        self.opening.generation()
    }

    /// The door by which it is warmed, to look and to write through.
    pub fn door(&mut self) -> &mut D
        ensures* lends { sem 𝓛 (lends_own D.row U.row D.Setting.row D.Docs.row D.Deed.row D.Shown self.entry result) }
        ensures value { result.now ≡ self.old.own }
    {
        &mut self.own
    }

    /// Notes the generation from which it is warmed, and the ticket of that acquire.
    pub fn note_from(&mut self, generation: u32, ticket: u32)
        ensures { HasNoted self.old self.new generation ticket }
    {
        self.from = Some((generation, ticket));
    }
}
