//! Mailboxes that are made from a number and are the same everywhere, to try an indexer on and to measure it.
#![tactic(auto)]

mod error;
pub mod laws;
mod mailbox;

pub use error::GenError;
pub use mailbox::{MOST_MESSAGES, make_mbox};
