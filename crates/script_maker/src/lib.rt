//! The generator: a script of documents, queries and commits, made of a number.
//!
//! [`make`] writes its text. What the text says, and that it reads, is told by [`laws`].
#![tactic(auto)]

pub mod laws;
mod making;
mod turn;

pub use making::make;
