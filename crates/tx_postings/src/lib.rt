//! Batches of words that are added to an index, and the messages of a word in its open segments.
#![tactic(auto)]

mod adding;
mod filling;
mod heads;
pub mod laws;
mod leaving;
mod listing;
mod looking;
mod posting;
mod stops;

pub use adding::{Added, add_batch};
pub use filling::fill_batch;
pub use leaving::{Leaving, leave_full};
pub use listing::{ListStop, list};
pub use stops::{AddStop, FillStop};
