//! A transaction memory behind a lock: one attempt runs at a time.
#![tactic(auto)]

mod calls;
mod heap;
pub mod laws;
mod lock;
mod memory;
mod pass;
mod table;

pub use memory::TurnMemory;
pub use pass::TurnPass;
