//! Caches that callers share, each by a seat of its own: whoever looks a key up has its value, or computes it while nobody
//! holds the cache, and the others that ask for it wait for that. Stores that nobody owns a number of are shared so too.
#![tactic(auto)]

mod calls;
mod cell;
mod kept;
mod numbered;
mod store_calls;
mod store_cell;

pub use calls::{Found, finish, give_up, look_up, recent};
pub use cell::Cell;
pub use kept::Kept;
pub use numbered::Numbered;
pub use store_calls::{fetch, put};
pub use store_cell::StoreCell;
