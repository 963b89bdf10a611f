//! Tests of the memories and of their uses.
#![tactic(auto)]

#[cfg(test)]
mod asked;
#[cfg(test)]
mod attempts;
#[cfg(test)]
mod callers;
#[cfg(test)]
mod errors;
#[cfg(test)]
mod lists;
#[cfg(test)]
mod signatures;
#[cfg(test)]
mod uses;
