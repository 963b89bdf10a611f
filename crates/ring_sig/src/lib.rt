//! Signatures of sets of addresses: a bit for each place, and a place for each address.
#![tactic(auto)]

pub mod laws;
mod sig;

pub use sig::{Sig, place};
