//! One caller's machine: which atomic step on the ring comes next, and what follows from the word that it found.
//! It holds no shared word.
#![tactic(auto)]

mod action;
mod begin;
mod caller;
mod check;
mod kind;
pub mod laws;
mod local;
mod next;
mod shape;
mod stage;
mod stamp;
mod tags;
mod turn;
mod writes;

pub use action::{Action, Later, Progress};
pub use caller::Caller;
pub use kind::Kind;
pub use local::Local;
pub use shape::Shape;
pub use stage::{CheckStage, Purpose, Stage, TurnStage, Walk};
pub use tags::complete;
pub use writes::WriteSet;
