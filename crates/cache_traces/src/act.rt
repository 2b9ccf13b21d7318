use crate::told::Told;
use std::collections::LinkedList;

/// A call with its answer, as contracts see it. No value of it is made: a [`Record`](crate::Record) stands for it, with keys by
/// their numbers.
pub enum Act<K, N> {
    /// A look-up: its key, what it needed, whether the same look-up had been answered Join before, and what it was answered.
    Looked {
        key: K,
        need: u64,
        again: bool,
        told: Told,
    },
    /// The end of an owned key: the numbers of its value, and whether there was memory.
    Finished {
        key: K,
        numbers: N,
        stored: bool,
    },
    /// The end of an owned key without a value.
    GaveUp {
        key: K,
    },
    /// The most recently used keys: how many were asked for, and the keys.
    Listed {
        most: u32,
        keys: LinkedList<K>,
    },
}

/// A call of the seat of this number, as contracts see it. No value of it is made.
pub struct Step<K, N> {
    pub seat: u32,
    pub act: Act<K, N>,
}
