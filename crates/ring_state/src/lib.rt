//! A ring as it is stored: its words, its history and its callers, and each atomic step in one function.
#![tactic(auto)]

mod entry;
mod gates;
pub mod laws;
mod lists;
mod member;
mod plain;
mod rule;
mod setup;
mod step;

pub use entry::Entry;
pub use gates::GateReads;
pub use member::Member;
pub use plain::Plain;
pub use setup::{Regions, Setup, Words};
