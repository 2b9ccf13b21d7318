//! One value behind one lock word, for the threads that have a seat at it.
//!
//! A [`CellTable`] keeps a value that fits its view whenever nobody holds it. Each [`Seat`] can take the value, work on
//! it as plain memory through a [`Held`], and put it back. A value may keep entries of each seat by its number; a seat
//! knows the list of its own entries, whoever else has had the value meanwhile.
#![tactic(auto)]

mod board;
mod fits;
mod held;
mod make;
mod plays;
mod seat;

pub use fits::Fits;
pub use held::Held;
pub use make::CellTable;
pub use seat::{Busy, Seat};

/// Memory was wanting.
#[derive(Clone, Copy, Debug, PartialEq, Eq)]
pub struct NoMemory;
