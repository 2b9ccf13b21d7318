//! The books of a searcher that has closed: what its caches were called for, and the numbers of these calls.
#![tactic(auto)]

mod book;
mod closing;

pub use book::Book;
pub use closing::{Books, Traces, close_doors};
