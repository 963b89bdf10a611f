//! Queries over words: their texts, read and printed, and which messages they hold of.
#![tactic(auto)]

mod answer;
mod bits;
mod error;
mod evaluation;
mod found;
mod group;
mod known;
pub mod laws;
mod map_postings;
mod parser;
mod postings;
mod printer;
mod query;
mod reading;
mod token;
mod truth;

pub use answer::answer_line;
pub use error::QueryError;
pub use evaluation::{EvalStop, evaluate};
pub use map_postings::MapPostings;
pub use parser::parse;
pub use postings::Postings;
pub use printer::print;
pub use query::{Queries, Query};
pub use truth::holds;
