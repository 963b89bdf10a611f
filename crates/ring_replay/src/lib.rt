//! Schedules replayed, from the script's text to the text of its trace.
#![tactic(auto)]

pub mod laws;
mod replaying;
mod stop;
mod tracing;

pub use replaying::{Replayed, replay_script, run_replay};
pub use stop::ReplayStop;
