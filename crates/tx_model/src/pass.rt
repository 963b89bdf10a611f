//! What the calls of a memory answer, and what a caller is doing.
use thiserror::Error;

/// How many addresses an attempt may write.
pub const MAX_WRITES: usize = 256;

/// Why an attempt was stopped. It is over then, and another one may succeed.
#[derive(Clone, Copy, Debug, PartialEq, Eq, Error)]
pub enum Stop {
    /// Commit `stamp`, later than the attempt's start, may have written what the attempt has read.
    #[error("commit {stamp} may have written what the attempt has read")]
    Met { stamp: u64 },
    /// Commit `stamp`, later than the attempt's start, can no longer be compared: `seen` commits have happened.
    #[error("commit {stamp} can no longer be compared, after {seen} commits")]
    Overrun { stamp: u64, seen: u64 },
}

/// The attempt has written as many distinct addresses as it may.
#[derive(Clone, Copy, Debug, PartialEq, Eq, Error)]
#[error("the attempt has written as many addresses as it may")]
pub struct WriteFull;

/// What a commit answers: its number in the history, or that of the state that it read from where it wrote nothing.
#[derive(Clone, Copy, Debug, PartialEq, Eq)]
pub struct Receipt {
    pub stamp: u64,
    pub wrote: bool,
}

/// Why an attempt wasn't committed. It is over.
#[derive(Clone, Copy, Debug, PartialEq, Eq, Error)]
pub enum CommitError {
    /// It had to stop, as at a read.
    #[error("{stop}")]
    Stopped { stop: Stop },
    /// It would be a commit past the last one that the memory has: there are `index` already.
    #[error("the memory has had its last commit, number {index}")]
    Worn { index: u64 },
}

/// What a caller is doing.
#[derive(Clone, Copy, Debug, PartialEq, Eq)]
pub enum PassState {
    /// No attempt is open.
    Idle,
    /// An attempt reads and writes.
    Active,
    /// Its commit is in the history, and its words are still to be stored.
    Stamped,
}

/// Want of memory.
#[derive(Clone, Copy, Debug, PartialEq, Eq, Error)]
#[error("no memory")]
pub struct Memory;
