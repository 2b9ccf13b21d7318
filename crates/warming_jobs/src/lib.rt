//! The queue of warming jobs: who opens searchers pushes them, and whoever is free takes the next one.
//!
//! [`Jobs`] is shared by one [`Pusher`] and any number of [`Puller`]s. Each job is a searcher that is to be warmed, and its
//! generation is later than those of all that were pushed before. Each job is handed out once, first in, first out, and
//! nobody takes a lock for it.
#![tactic(auto)]

mod board;
mod close;
mod job;
mod make;
mod puller;
mod pusher;

pub use board::Jobs;
pub use job::Job;
pub use puller::Puller;
pub use pusher::Pusher;

/// Memory was wanting.
#[derive(Clone, Copy, Debug, PartialEq, Eq)]
pub struct NoMemory;
