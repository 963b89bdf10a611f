//! The contract between a transaction memory and those who use it.
#![tactic(auto)]

mod body;
mod gate;
mod history;
pub mod laws;
mod memory;
mod pass;
mod sense;
mod trying;
mod view;
mod word;

pub use body::{Body, BodyStep};
pub use gate::{GATE_OPEN, GATE_PACKED, GATE_SEALED, GATE_UNUSED, Region};
pub use history::Commit;
pub use memory::TxMemory;
pub use pass::{CommitError, MAX_WRITES, Memory, PassState, Receipt, Stop, WriteFull};
pub use sense::Sense;
pub use trying::{BodyStop, atomically, count_stop};
pub use view::{Attempt, Owned, PassView};
pub use word::Word;
