//! Replies to requests as JSON, and the messages of the refused ones.
#![tactic(auto)]

mod messages;
mod replies;

pub use replies::{Answer, reply, reply_text};
