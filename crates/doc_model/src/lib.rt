//! Documents: for each field of the schema the list of its values, and the text of the unique key.
#![tactic(auto)]

mod doc;
mod json;
pub mod laws;
mod object;
mod value;

pub use doc::{Doc, DocFault, Docs};
pub use json::doc_json;
