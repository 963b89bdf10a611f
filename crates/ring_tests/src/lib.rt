//! Tests of the ring: schedules that are replayed, and the ring that threads share.
#![tactic(auto)]

#[cfg(test)]
mod errors;
#[cfg(test)]
mod examples;
#[cfg(test)]
mod leaves;
#[cfg(test)]
mod memory;
pub mod notes;
#[cfg(test)]
mod schedules;
#[cfg(test)]
mod scripts;
#[cfg(test)]
mod words;
#[cfg(test)]
mod worlds;
