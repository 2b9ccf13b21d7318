//! Runs the clients of a script, and tells their requests and the searchers as rows.
//!
//! The runner is serial: it takes a phase's clients one after another and finishes each searcher at once.
#![tactic(auto)]

mod laws;
mod order;
mod output;
mod rows;
mod run;
mod runner;
mod serve;
mod serving;
mod summary;

pub use laws::every_script_has_a_lawful_output;
pub use output::output_text;
pub use rows::{Output, RequestRow, RequestRows, SearcherList, SearcherRow, Verb};
pub use run::run_script;
pub use serve::defaults;
pub use summary::summary_text;
