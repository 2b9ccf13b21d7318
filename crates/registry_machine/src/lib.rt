//! The registry of searchers as a machine: the entries of its history, its state, which entry may come next, and what
//! follows for every legal history. It speaks of lists alone, over any content, any shown documents and any lists. No
//! lock, word, slot table or thread is in it.
#![tactic(auto)]

mod entry;
pub mod laws;
pub mod trials;

pub use entry::Entry;
