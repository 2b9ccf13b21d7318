//! What became of the keys of a cache, counted.
ghost use Rattle.std.specs.Prelude.{◌≡◌, ◌+◌, ◌<◌, ◌≤◌, ◌^◌, if◌then◌else◌};
ghost use Rattle.autowarm.specs.Steps.{is_computed, is_refused};

use field_schema::NoMemory;
use search_model::Note;

// How many keys were computed, and for how many memory was wanting.
#[derive(Clone, Copy)]
pub(crate) struct Tally {
    pub(crate) computed: u32,
    pub(crate) refused: u32,
}

impl Tally {
    // No key yet.
    pub(crate) const NONE: Tally = Tally {
        computed: 0,
        refused: 0,
    };

    // One key more.
    pub(crate) fn with(self, done: Result<Note, NoMemory>) -> Tally
        requires computed { self.computed + 1 < 2 ^ 32 }
        requires refused { self.refused + 1 < 2 ^ 32 }
        ensures computed { result.computed ≡ self.computed + (if is_computed done then 1 else 0) }
        ensures refused { result.refused ≡ self.refused + (if is_refused done then 1 else 0) }
        ensures one { result.computed + result.refused ≤ self.computed + self.refused + 1 }
    {
        match done {
            Ok(Note::Computed) => Tally {
                computed: self.computed + 1,
                ..self
            },
            Ok(_) => self,
            Err(NoMemory) => Tally {
                refused: self.refused + 1,
                ..self
            },
        }
    }
}
