use doc_sets::DocList;

/// What a query found: the numbers of its first documents in the order of its sort, and how many there are in all.
#[derive(Drop)]
pub struct Entry {
    pub ids: DocList,
    pub found: u32,
}
