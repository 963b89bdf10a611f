//! The ring of commits as a transaction memory.
#![tactic(auto)]

mod memory;

pub use memory::RingMemory;
