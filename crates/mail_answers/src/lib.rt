//! Answers from the index of a mailbox: each query is asked in an attempt that writes nothing.
#![tactic(auto)]

mod answering;
mod asking;
mod attempt;
mod keys;
pub mod laws;
mod lists;
mod reading;
mod sorting;

pub use answering::answer_queries;
