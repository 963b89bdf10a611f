//! The key records of open segments.
#![tactic(auto)]

mod adding;
mod finding;
mod inserting;
pub mod laws;
mod offsets;
mod reading;
mod writing;

pub use adding::add_cell;
pub use finding::find;
pub use inserting::insert;
pub use reading::read_word;
pub use writing::write_words;
