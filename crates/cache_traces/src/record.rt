use crate::told::Told;

/// What was called and answered. A key stands as its number, in the order of the first uses.
#[derive(Drop)]
pub enum Done<N: Drop> {
    /// A look-up.
    Looked {
        key: u32,
        /// What was needed.
        need: u64,
        /// Whether the same look-up had been answered Join before.
        again: bool,
        told: Told,
    },
    /// The end of an owned key, with its value.
    Finished {
        key: u32,
        /// The numbers of the value.
        numbers: N,
        /// Whether there was memory.
        stored: bool,
    },
    /// The end of an owned key, without a value.
    GaveUp {
        key: u32,
    },
    /// The most recently used keys.
    Listed {
        /// How many were asked for.
        most: u32,
        keys: Vec<u32>,
    },
}

/// A call of a seat.
#[derive(Drop)]
pub struct Record<N: Drop> {
    pub seat: u32,
    pub done: Done<N>,
}
