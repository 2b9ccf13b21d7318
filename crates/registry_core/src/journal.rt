/// What an entry of the journal tells. The numbers are generations, and `G` lists some.
#[derive(Drop)]
pub enum Happened<U, G> {
    /// A generation was opened.
    Opened(u32),
    /// An opening was refused, since as many generations were warming as may be: these.
    TooMany(G),
    /// An opening was refused, since the last generation had been opened.
    Spent,
    /// An update was accepted.
    Written(U),
    /// A commit opened no searcher.
    Flushed,
    /// A generation was registered as current.
    Registered(u32),
    /// A generation was given up, since a greater one was current.
    Superseded { generation: u32, by: u32 },
}

/// An entry of the journal. It has the caller and the line where the history's entry names a caller.
#[derive(Drop)]
pub struct Placed<U, G> {
    pub caller: Option<u32>,
    pub line: Option<u32>,
    pub what: Happened<U, G>,
}
