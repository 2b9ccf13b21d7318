//! The parameters of requests: what a query, a commit and a delete ask for, read from a form,
//! exactly or to the first fault.
//!
//! - [`Request::read`] reads the parameters of a query.
//! - [`CommitForm::read`] reads those of a commit.
//! - [`DeleteForm::read`] reads those of a delete.
//!
//! Parameters are a form as browsers send it: `name=value` with `&` between them. A `+` is a space,
//! and `%` and two digits are a byte; bytes that are no UTF-8 become U+FFFD. Unknown names are
//! ignored.
#![tactic(auto)]

mod commit;
mod delete;
mod fault;
pub mod laws;
mod params;
mod request;
mod value;

pub use commit::CommitForm;
pub use delete::DeleteForm;
pub use fault::RequestFault;
pub use request::{Defaults, Filter, Filters, Request};
