//! The index of word lists, in a transaction memory on a ring.
#![tactic(auto)]

mod indexing;
pub mod laws;

pub use indexing::{close_index, index_lists};
