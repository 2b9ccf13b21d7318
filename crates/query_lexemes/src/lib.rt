//! Query texts as letters and lexemes.
#![tactic(auto)]

mod fault;
mod item;
mod letter;
mod lexeme;
mod local;
mod range;
mod read;
mod word;

pub use fault::QueryFault;
pub use item::{SortItem, behind_white, sort_item};
pub use letter::{Letter, letters, plain_letters};
pub use lexeme::{Bound, Lexeme, Operator, What};
pub use local::{Local, ReadLocal, behind_mark, read_local};
pub use read::next_lexeme;
