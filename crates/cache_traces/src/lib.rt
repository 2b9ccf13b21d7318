//! A cache with the calls that were made of it: whose each was, its key, its answer, and the numbers of its value on which the
//! machine goes on. Keys are kept once, and the machine runs over their numbers. Which calls may follow each other is a
//! definition over any keys and values, with its laws.
#![tactic(auto)]

mod act;
mod cells;
mod counted;
pub mod laws;
mod record;
mod store;
mod store_act;
mod told;
mod trace;

pub use act::{Act, Step};
pub use cells::{Looked, TracedCells};
pub use counted::Counted;
pub use record::{Done, Record};
pub use store::TracedStore;
pub use store_act::{StoreAct, StoreStep};
pub use told::Told;
pub use trace::Trace;
