//! The typed schema of an index: its fields and unique key, the keys that a document has in a field, and the
//! tokens of a text.
//!
//! - [`Schema::read`] reads a schema from JSON, or tells the first fault of the value.
//! - [`Key`] is a value as queries and sorts see it, with a total order.
//! - [`tokens`] splits a text into the tokens that a text field is searched by.
//! - [`long_text`], [`begins_true`] and [`truth_text`] say what texts and truth values are in fields of other types.
//!
//! Contracts see a `Text` as its bytes, a `Texts` as the list of those, and a `Schema` as the list of its fields
//! and the place of its key.
#![tactic(auto)]

mod field;
mod key;
mod member;
mod memory;
mod name;
mod reading;
mod schema;
mod text;
mod token;
mod value_text;

pub use field::{Field, FieldList, FieldNo, FieldType};
pub use key::Key;
pub use memory::NoMemory;
pub use schema::{Schema, SchemaFault};
pub use text::{Text, Texts};
pub use token::tokens;
pub use value_text::{begins_true, long_text, truth_text};
