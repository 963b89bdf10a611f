//! The words of a message, and their keys.
#![tactic(auto)]

mod chunk;
mod hash;
mod key;
pub mod laws;
mod lists;
mod memory;
mod words;

pub use hash::{bucket_of, lane_of};
pub use key::{Key, WordBytes, bytes_of, key_of, key_of_words};
pub use lists::{ListsError, WordLists, lists_of};
pub use memory::Memory;
pub use words::words_of;
