ghost use Rattle.std.specs.Prelude.{◌≡◌};

use crate::DocNo;
use std::marker::Model;

/// A list of document numbers, seen as that list.
#[derive(Drop)]
pub struct DocList {
    numbers: Vec<DocNo>,
}

impl Model for DocList {
    ghost use Rattle.std.specs.Prelude.{List, ℕ};

    ghost Value = { List ℕ };

    ghost view = { λ a. a.numbers.items };
}

impl DocList {
    /// The list of `numbers`, in their order. Takes no memory.
    pub fn new(numbers: Vec<DocNo>) -> DocList
        ensures { result ≡ numbers.items }
    {
        DocList { numbers }
    }

    /// Lends the numbers. Takes no memory.
    pub fn get(&self) -> &[DocNo]
        ensures { result.now ≡ self.now }
    {
        self.numbers.as_slice()
    }
}
