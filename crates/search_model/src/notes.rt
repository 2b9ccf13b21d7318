use sqlite_items::Items;

/// What a cache did for a query of a request.
#[derive(Clone, Copy, Debug, PartialEq, Eq)]
pub enum Note {
    /// Its entry was there.
    Hit,
    /// Another request made its entry, and this one waited for it.
    Joined,
    /// It was looked up and not there, so it was evaluated.
    Computed,
    /// The request asked for no cache (`cache=false`).
    Bypassed,
}

/// Notes of filters, in their order. Contracts see it as a list.
pub type Notes = Items<Note>;
