//! The cache machine over any keys and values: entries in the order of their last use, bounded in number and weight, and
//! the keys that seats are computing. The caches of a searcher are this one at their keys and values.
#![tactic(auto)]

mod cells;
mod store;
mod value;

pub use cells::Cells;
pub use store::Store;
pub use value::Value;
