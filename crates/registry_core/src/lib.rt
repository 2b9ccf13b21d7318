//! The registry of searchers behind one lock: what callers announce is executed there one after another, written, and
//! told in a journal. It stands for any doors, any updates and any writer.
#![tactic(auto)]

mod caller;
mod change;
mod commit;
mod ended;
mod enter;
mod finish;
mod fresh;
mod journal;
mod locked;
mod open;
mod pinned;
mod update;
mod writer;

pub use caller::{Caller, UpdateRefusal};
pub use change::Change;
pub use commit::CommitRefusal;
pub use ended::Finish;
pub use finish::Finished;
pub use fresh::Fresh;
pub use journal::{Happened, Placed};
pub use locked::{Locked, Terms};
pub use pinned::Pinned;
pub use writer::Writer;

/// Memory was wanting.
#[derive(Clone, Copy, Debug, PartialEq, Eq)]
pub struct NoMemory;
