//! Texts of schedules: what a script says, and what replaying one prints.
#![tactic(auto)]

mod cutting;
mod draft;
mod error;
pub mod laws;
mod name;
mod number;
mod numbers;
mod printer;
mod reading;
mod script;
mod script_printer;

pub use error::ScriptError;
pub use number::number_of;
pub use printer::print_trace;
pub use script::parse_script;
pub use script_printer::print_script;
