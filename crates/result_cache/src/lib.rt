//! The result cache of a searcher: the first documents that a query with its filters and its sort found, the most
//! recently used first, bounded in number and weight, and the keys whose results a caller is computing.
#![tactic(auto)]

mod entry;
mod kept;
mod key;
mod result_cells;

pub use entry::Entry;
pub use key::ResultKey;
pub use result_cells::{ResultCells, ResultLook};
