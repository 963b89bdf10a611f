//! A list that only proofs see.
#![tactic(auto)]

mod list;

pub use list::GhostList;
