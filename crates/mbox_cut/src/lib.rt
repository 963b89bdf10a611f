//! Cuts a mailbox into its messages.
//!
//! The form is the default mbox of RFC 4155, Appendix A, read leniently: a separator is a line that
//! begins with `From ` and stands first or directly after an empty line.
#![tactic(auto)]

mod cutter;
mod error;
pub mod laws;
mod lines;
mod separator;
mod span;

pub use cutter::cut;
pub use error::CutError;
pub use separator::is_separator;
pub use span::Span;
