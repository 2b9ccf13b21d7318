//! The document cache of a searcher: the documents that were read last, bounded in number and weight.
#![tactic(auto)]

mod doc_cells;
mod kept;

pub use doc_cells::DocCells;
