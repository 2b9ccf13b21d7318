use std::collections::LinkedList;

/// An entry of the registry's history: one call on it, as it was executed. `U` is the content that a caller announced,
/// `D` the documents that an opened searcher shows, `L` what a caller or a warming did through its door. No value is
/// made of it: contracts keep histories as lists of entries.
pub enum Entry<U, D, L> {
    /// A caller opened the next generation in a slot, and it is warming.
    Open {
        caller: u32,
        content: U,
        generation: u32,
        slot: u32,
        docs: D,
    },
    /// A caller's opening was refused, since as many generations were warming as may be, and was told which.
    TooMany {
        caller: u32,
        content: U,
        warming: LinkedList<u32>,
    },
    /// A caller's opening was refused, since the last generation had been opened.
    GenerationsSpent {
        caller: u32,
        content: U,
    },
    /// A caller changed the index, or took a place without a searcher.
    Update {
        caller: u32,
        content: U,
    },
    /// A warming generation was registered as current; the list is what was done through its own door.
    Finish {
        generation: u32,
        list: LinkedList<L>,
    },
    /// A warming generation was given up, since a greater one was current; the list is as in `Finish`.
    Superseded {
        generation: u32,
        by: u32,
        list: LinkedList<L>,
    },
    /// A caller pinned the current generation; the ticket is the number of acquires of it before.
    Acquire {
        caller: u32,
        generation: u32,
        ticket: u32,
    },
    /// A caller wanted the current generation, and there was none yet.
    NotYet {
        caller: u32,
    },
    /// A caller gave back the generation that it pinned; the list is what it did through its door.
    Release {
        caller: u32,
        generation: u32,
        list: LinkedList<L>,
    },
    /// The slot of a generation that nobody uses any more was given back.
    Free {
        generation: u32,
    },
}
