//! Worlds that run: many callers on one ring of commits, and schedules replayed on them.
#![tactic(auto)]

mod acts;
mod event;
pub mod laws;
mod may;
mod requests;
mod schedule;
mod trace;
mod world;

pub use event::{Act, Event};
pub use ring_state::{Regions, Setup, Words};
pub use schedule::replay;
pub use trace::{Happened, ReplayError, Trace, TraceLine, TraceLines};
pub use world::World;
