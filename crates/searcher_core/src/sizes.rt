/// The sizes of a searcher's caches, each 1 to 4,096.
#[derive(Clone, Copy, Debug, PartialEq, Eq)]
pub struct CacheSizes {
    /// The most entries of the filter cache.
    pub filters: u32,
    /// The most entries of the result cache.
    pub results: u32,
    /// The most entries of the document cache.
    pub documents: u32,
    /// A result lists a multiple of so many documents, or all that were found (`queryResultWindowSize`).
    pub window: u32,
    /// A result that lists more documents isn't kept (`queryResultMaxDocsCached`).
    pub most_docs: u32,
}
