//! The order of documents by a sort: definitions alone, over documents as lists of keys, their laws, and trials of
//! them. No index, heap or set is in them.
#![tactic(auto)]

pub mod laws;
pub mod trials;
