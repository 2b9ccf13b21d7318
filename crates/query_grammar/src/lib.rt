//! The grammar of the standard query parser as forms, and what it has to do with the reading of query texts. There is
//! no code here: each function does nothing, and its clause is a law.
#![tactic(auto)]

pub mod guide;
pub mod laws;
pub mod trials;
