//! Tests of the mail crates that use their public items alone, one file for each crate.
#![tactic(auto)]

#[cfg(test)]
mod cuts;
#[cfg(test)]
mod mailboxes;
#[cfg(test)]
mod queries;
#[cfg(test)]
mod streams;
#[cfg(test)]
mod words;
