//! Queries and sorts as trees, and which documents a query matches.
#![tactic(auto)]

pub mod laws;
mod query;
mod sort;

pub use query::{End, Queries, Query};
pub use sort::{Sort, SortBy, SortKey};
