use crate::text::{Text, Texts};

/// The place of a field in its schema, from 0.
pub type FieldNo = u32;

/// What the values of a field are.
#[derive(Clone, Copy, Debug, PartialEq, Eq)]
pub enum FieldType {
    /// Whole texts (`string`).
    Str,
    /// Whole numbers of 64 signed bits (`plong`).
    Long,
    /// Truth values (`boolean`).
    Bool,
    /// Texts that are read as tokens (`text_general`).
    Text,
}

/// A field of a schema.
#[derive(Debug, Drop)]
pub struct Field {
    /// 1 to 64 ASCII letters, digits and `_`, not beginning with a digit.
    pub name: Text,
    /// What its values are.
    pub kind: FieldType,
    /// Whether a document may have several values in it.
    pub multi: bool,
    /// Whether replies show it.
    pub stored: bool,
    /// Whether queries can name it.
    pub indexed: bool,
}

/// Which stored fields a reply shows.
#[derive(Debug, Drop)]
pub enum FieldList {
    /// All of them.
    All,
    /// Those with one of these names; a name of no stored field adds nothing.
    Names(Texts),
}
