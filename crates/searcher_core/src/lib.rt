//! A searcher: a view that is never changed, and requests that are served from its caches.
#![tactic(auto)]

mod filters;
mod meeting;
mod page;
mod results;
mod searcher;
mod seats;
mod served;
mod serving;
mod sizes;

pub use searcher::{Door, Searcher};
pub use seats::Seats;
pub use served::Served;
pub use serving::serve;
pub use sizes::CacheSizes;
