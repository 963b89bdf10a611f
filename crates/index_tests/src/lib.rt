//! Tests of the index of a mailbox, over the memory that runs one attempt at a time, and of workers and answers over a ring too.
#![tactic(auto)]

#[cfg(test)]
mod answers;
#[cfg(test)]
mod asked;
#[cfg(test)]
mod buckets;
#[cfg(test)]
mod costs;
#[cfg(test)]
mod counting;
#[cfg(test)]
mod errors;
#[cfg(test)]
mod heap;
#[cfg(test)]
mod indexed;
#[cfg(test)]
mod jobs;
#[cfg(test)]
mod listing;
#[cfg(test)]
mod lists;
#[cfg(test)]
mod made;
#[cfg(test)]
mod mailbox;
#[cfg(test)]
mod postings;
#[cfg(test)]
mod rows;
#[cfg(test)]
mod workers;
