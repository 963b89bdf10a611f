//! Many callers on one ring of commits, as plain data: worlds, their steps, and what every step keeps.
#![tactic(auto)]

pub mod laws;
mod process;

pub use process::Process;
