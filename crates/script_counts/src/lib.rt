//! What a script has in all: its clients, lines, phases and requests, and the line that tells them.
#![tactic(auto)]

mod counting;

pub use counting::{Counts, check_text, counts_of};
