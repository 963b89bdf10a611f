//! The ring of commits on the words of one table, which several threads use at once.
#![tactic(auto)]

mod calls;
mod closed;
mod closing;
mod commits;
mod direct;
pub mod laws;
mod layout;
mod opening;
mod pass;
mod ring;
mod seats;
mod stamp;
mod steps;
mod straight;
mod table;
mod turns;

pub use closed::Closed;
pub use pass::{Note, RingPass};
pub use ring::Ring;
pub use stamp::Stamp;
pub use turns::Turn;
