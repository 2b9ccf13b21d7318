//! Sets of document numbers, kept as a sorted list or as bits.
//!
//! A [`DocSet`] is seen as a finite set of numbers below [`MAX_DOCS`]. A set with few members for its
//! greatest one is a sorted list, and any other a row of bits, so a set of ten takes tens of bytes and
//! a full one 32 KiB. No answer depends on the form. [`Gathered`] makes a set of numbers that come in any order.
#![tactic(auto)]

use std::alloc::{AllocError, AllocFailed};

mod bit_rows;
mod doc_list;
mod doc_set;
mod gathered;
mod listed;
mod walk;

pub use doc_list::DocList;
pub use doc_set::DocSet;
pub use gathered::Gathered;
pub use walk::DocSetIter;

/// The number of a document in a view, below [`MAX_DOCS`].
pub type DocNo = u32;

/// Each document's number is below this.
pub const MAX_DOCS: u32 = 262_144;

/// Memory was wanting.
#[derive(Clone, Copy, Debug, PartialEq, Eq)]
pub struct NoMemory;

impl From<AllocError> for NoMemory {
    fn from(_error: AllocError) -> NoMemory {
        NoMemory
    }
}

impl<T: Drop> From<AllocFailed<T>> for NoMemory {
    fn from(_error: AllocFailed<T>) -> NoMemory {
        NoMemory
    }
}
