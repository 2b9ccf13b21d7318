//! What a cache of bounded size does whose callers share the keys that they compute: definitions over any keys and
//! values, their laws, and trials of them. No map, list of nodes or count of the program is in them.
#![tactic(auto)]

pub mod laws;
mod look;
pub mod trials;

pub use look::Look;
