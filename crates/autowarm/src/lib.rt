//! Warming: before a new searcher serves, what was used last in the caches of an old one is regenerated in its own, and
//! requests are served through its door.
#![tactic(auto)]

mod count;
mod filters;
mod keys;
mod listening;
mod request;
mod results;
mod tally;
mod warming;

pub use count::{WarmCount, warm_number};
pub use listening::listen;
pub use warming::{WarmPlan, WarmReport, warm};
