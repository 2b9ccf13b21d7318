//! What makes the output of a run lawful: definitions alone, a check of printed rows against lists. No lock, word,
//! thread, cache or loop of the program is in them.
#![tactic(auto)]

mod places;
pub mod texts;
pub mod trials;

pub use places::first_place;
