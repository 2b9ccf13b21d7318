//! The registry of searchers as a table that threads share, each by what it was dealt.
//!
//! [`make`] gives a [`Pass`] to each caller and a [`Registrar`]. A caller announces a call and the registrar executes it;
//! each step stands in one history of the registry, which is legal, and whose beginnings the passes and the registrar
//! have seen. A [`Sighting`] tells one of them what another has seen.
#![tactic(auto)]

mod board;
mod claim;
mod close;
mod fill;
mod gens;
mod making;
mod pass;
mod pin;
mod plays;
mod publish;
mod registrar;
mod settle;
mod shown;
mod tokens;

pub use board::{Asked, Call};
pub use close::Ended;
pub use gens::Gens;
pub use making::make;
pub use pass::Pass;
pub use pin::{AcquireRefusal, Pin};
pub use registrar::Registrar;
pub use shown::Shown;
pub use tokens::{Announced, OpenRefusal, Opening, Published, Sighting};

/// Memory was wanting.
#[derive(Clone, Copy, Debug, PartialEq, Eq)]
pub struct NoMemory;
