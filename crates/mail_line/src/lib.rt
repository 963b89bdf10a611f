//! The command line of `mailring`: what its words ask for.
#![tactic(auto)]

mod command;
pub mod laws;
mod number;
mod options;
mod settings;

pub use settings::{LineError, Settings, settings_of};
