//! The heap of an index of words: where its words lie in a transaction memory, and when they are a good index.
#![tactic(auto)]

pub mod laws;
mod memory;
mod plan;
mod segments;
mod sense;

pub use memory::opening;
pub use plan::Plan;
pub use segments::{fresh_segment, open_segment, write_word};
pub use sense::MailSense;
