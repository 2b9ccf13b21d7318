//! Which documents of a view a query matches, and whether it matches one document.
#![tactic(auto)]

mod evaluating;
mod keys;
mod matching;
mod numbers;
mod phrase;
mod sets;

pub use evaluating::eval;
pub use matching::matches;
