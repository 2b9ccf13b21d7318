//! The filter cache of a searcher: the sets of documents that its filters match, the most recently used first, bounded
//! in number and weight, and the filters whose sets a caller is computing.
#![tactic(auto)]

mod filter;
mod filter_cells;

pub use filter_cells::{FilterCells, FilterLook};
