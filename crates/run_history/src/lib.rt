//! Rows of a run that agree with a legal history of the registry: what agreeing means, that such rows are lawful, and
//! how a serial run keeps it, request by request. It speaks of lists alone.
#![tactic(auto)]

pub mod agreement;
pub mod serial;
pub mod trials;
