ghost use Rattle.std.specs.Prelude.{◌≡◌, ◌∷◌, ◌++◌, [], OnOk};

use doc_sets::DocNo;
use field_schema::NoMemory;
use std::marker::Model;

/// Places of a key in a field of a document: pairs of the value's index and the key's index in that value.
/// Contracts see the list of the pairs.
#[derive(Debug, Drop)]
pub struct Places {
    items: Vec<(u32, u32)>,
}

impl Model for Places {
    ghost use Rattle.std.specs.Prelude.{List, ℕ};

    ghost Value = { List (ℕ × ℕ) };

    ghost view = { λ p. p.items.items };
}

impl Places {
    /// Wraps a vector, without memory.
    pub fn new(items: Vec<(u32, u32)>) -> Places
        ensures { result ≡ items.items }
    {
        Places { items }
    }

    /// The pairs, without memory.
    pub fn get(&self) -> &[(u32, u32)]
        ensures { result.now ≡ self.now }
    {
        self.items.as_slice()
    }

    // One more place behind the others.
    pub(crate) fn push(&mut self, place: (u32, u32)) -> Result<(), NoMemory>
        ensures { OnOk result (self.new ≡ self.old ++ place ∷ []) }
    {
        self.items.push(place)?;
        Ok(())
    }
}

/// A document that has a key, with the key's places in it where the key is a token.
#[derive(Debug, Drop)]
pub struct Posting {
    pub doc: DocNo,
    pub places: Places,
}

/// Where a key stands in a document: the document's number, the value's index among the document's values in the field, and
/// the key's index among the value's keys. Positions stand in the order of these three.
#[derive(Clone, Copy, Debug, PartialEq, Eq)]
pub struct Position {
    pub doc: DocNo,
    pub value: u32,
    pub token: u32,
}

/// How often a view was read: its postings and terms, its sort values, and its stored documents. A count at its
/// greatest number stays.
#[derive(Clone, Copy, Debug, PartialEq, Eq)]
pub struct Counts {
    pub postings: u64,
    pub values: u64,
    pub stored: u64,
}
