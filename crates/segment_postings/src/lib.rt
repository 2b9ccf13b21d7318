#![tactic(auto)]

mod combining;
mod gathering;
mod laid;
mod occurrence;
mod packing;
mod posting;
mod probe;
mod reads;
mod renumbering;
mod segment;
mod span;
mod terms;
mod view;

pub use posting::{Counts, Places, Position, Posting};
pub use probe::Probe;
pub use reads::Reads;
pub use span::Span;
pub use view::View;
