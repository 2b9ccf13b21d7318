//! The documents that the updates so far leave, and the view of them that the current searcher sees.
#![tactic(auto)]

mod gone;
mod index;
mod pending;

pub use index::Index;
