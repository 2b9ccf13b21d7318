//! The outside of the program: where its bytes come from, where they go, and where callers can be held in tests.
//!
//! Code above is generic over [`Source`], [`Sink`] and [`Gate`]. Each counts its own faults, so a clause
//! above can say that a fault was told only where the outside failed in that very call.
#![tactic(auto)]

mod fails;
mod gate;
mod hold_gate;
mod mem_sink;
mod mem_source;
mod sink;
mod source;
mod streams;

pub use gate::{Gate, Moment, OpenGate};
pub use hold_gate::{Hold, HoldGate};
pub use mem_sink::MemSink;
pub use mem_source::MemSource;
pub use sink::Sink;
pub use source::{Failed, Source};
pub use streams::{Reading, StdSink, StdSource, Writing};

/// Memory was wanting.
#[derive(Clone, Copy, Debug, PartialEq, Eq)]
pub struct NoMemory;
