//! What a search answers: definitions, over documents as lists of keys, and the notes of what caches did. No index, window or cache is
//! in them.
#![tactic(auto)]

mod notes;

pub use notes::{Note, Notes};
