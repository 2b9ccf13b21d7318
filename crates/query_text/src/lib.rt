//! The standard query parser: query texts read to query trees.
#![tactic(auto)]

mod clause;
mod fault;
pub mod laws;
mod level;
mod op;
mod printing;
mod reader;
mod sort_text;
mod value;

pub use op::Op;
pub use printing::print;
pub use query_lexemes::QueryFault;
pub use reader::{Parsed, parse};
pub use sort_text::{SortFault, read_sort};
