//! What the keys of a sort compare of a document.
use doc_sets::DocNo;
use field_schema::Key;
use std::cmp::{Ordering, Reverse};

// What a key compares.
#[derive(Debug, Drop, PartialEq, Eq, PartialOrd, Ord)]
pub(crate) enum Held {
    Value(Option<Key>),
    Number(DocNo),
}

// It in the key's direction.
#[derive(Debug, Drop, PartialEq, Eq, PartialOrd, Ord)]
pub(crate) enum Mark {
    Up(Held),
    Down(Reverse<Held>),
}
