use doc_model::Doc;
use search_model::{Note, Notes};
use std::sync::Arc;

/// What a request was answered, and what the caches did for it.
#[derive(Drop)]
pub struct Served {
    /// How many documents match the query and every filter.
    pub found: u32,
    /// Those of the page, in the order of the sort.
    pub docs: Vec<Arc<Doc>>,
    /// What the result cache did.
    pub result: Note,
    /// What the filter cache did for each filter, in their order; nothing where the result was there already.
    pub filters: Notes,
    /// How many documents of the page the document cache had.
    pub doc_hits: u32,
}
