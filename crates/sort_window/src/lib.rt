//! The first documents of a set in the order of a sort, and how many of them a result keeps.
#![tactic(auto)]

mod best;
mod first;
mod mark;
mod standing;
mod walk;
mod windows;

pub use first::first_n;
pub use windows::window;
