//! The shared caches of a searcher: what each keeps, when it fits the searcher's view, and filters that are looked up in
//! theirs, or evaluated while others wait for them.
#![tactic(auto)]

mod cell_view;
mod document_value;
mod documents;
mod filter_set;
mod filters;
mod making;
mod result_entry;

pub use cell_view::CellView;
pub use document_value::DocumentValue;
pub use documents::document;
pub use filter_set::FilterSet;
pub use filters::set_of_filter;
pub use making::{document_seats, filter_seats, result_seats};
pub use result_entry::{ResultEntry, ResultNumbers};
