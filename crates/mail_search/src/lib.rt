//! The search of a mailbox: what the words of the command line ask for, done over a source and sinks. The top call is [`run`].
#![tactic(auto)]

mod asked;
mod indexed;
mod input;
pub mod laws;
mod lists;
mod note;
mod outcome;
mod report;
mod running;
mod searched;
mod status;

pub use note::write_note;
pub use outcome::Outcome;
pub use running::run;
pub use status::Status;
