//! The workers that index a mailbox, and the queue of message numbers that they draw from.
#![tactic(auto)]

mod gate;
mod jobs;
pub mod laws;
mod leaving;
mod lists;
mod message;
mod report;
mod rule;
mod run;
mod worker;

pub use gate::{Gate, OpenGate};
pub use jobs::{JobPass, Jobs};
pub use leaving::leave_segment;
pub use lists::lists_with;
pub use message::index_message;
pub use report::{Drawn, Report};
pub use rule::JobView;
pub use run::run_workers;
pub use worker::work;
