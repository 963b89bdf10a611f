//! Whether all attempts of some callers fit one history.
use crate::caller::Caller;
use crate::log::{Access, Attempt, End};
use crate::sense::Counts;
use ring_words::Closed;
use std::alloc::{AllocError, AllocFailed, Global};
use thiserror::Error;

/// What doesn't fit.
#[derive(Clone, Copy, Debug, PartialEq, Eq, Error)]
pub enum Flaw {
    #[error("a commit has a number that isn't one of the history's, or another one's")]
    Stamp,
    #[error("a commit of the history is no caller's")]
    Missing,
    #[error("a commit's reads aren't those of the state before it")]
    Commit,
    #[error("an attempt's reads are of no state that it may have read from")]
    Attempt,
    #[error("a word isn't that of the last state")]
    Word,
    #[error("no memory")]
    Memory,
}

impl From<AllocError> for Flaw {
    fn from(_: AllocError) -> Self {
        Flaw::Memory
    }
}

impl<T: Drop> From<AllocFailed<T>> for Flaw {
    fn from(_: AllocFailed<T>) -> Self {
        Flaw::Memory
    }
}

/// An attempt, and what it read and wrote in order.
#[derive(Clone, Copy)]
struct Told<'a> {
    attempt: Attempt,
    accesses: &'a [Access],
}

/// Plays all commits over the opening, in their order, and looks for a state from which each other attempt has read.
pub fn check(
    alloc: Global,
    opening: Vec<u64>,
    callers: &[Caller],
    closed: &Closed<Counts>,
) -> Result<(), Flaw> {
    let commits = commits_of(alloc, callers, closed.commits())?;
    let others = others_of(alloc, callers)?;
    let last = play_all(alloc, opening, commits.as_slice(), others.as_slice())?;
    for addr in 0..closed.len() {
        if last.get(addr as usize) != Some(&closed.word(addr)) {
            return Err(Flaw::Word);
        }
    }
    Ok(())
}

/// The commits by their numbers.
fn commits_of<'a>(
    alloc: Global,
    callers: &'a [Caller],
    count: u64,
) -> Result<Vec<Option<Told<'a>>>, Flaw> {
    let mut commits = Vec::new(alloc);
    for _ in 0..count {
        commits.push(None)?;
    }
    for caller in callers {
        for attempt in caller.log.attempts() {
            if let End::Commit { stamp } = attempt.end {
                let Some(slot) = commits.get_mut(stamp.wrapping_sub(1) as usize) else {
                    return Err(Flaw::Stamp);
                };
                if slot.is_some() {
                    return Err(Flaw::Stamp);
                }
                *slot = Some(Told {
                    attempt: *attempt,
                    accesses: caller.log.accesses_of(attempt),
                });
            }
        }
    }
    Ok(commits)
}

/// The attempts that are no commits, by what their callers knew to be complete when they began.
fn others_of<'a>(alloc: Global, callers: &'a [Caller]) -> Result<Vec<Told<'a>>, Flaw> {
    let mut others = Vec::new(alloc);
    for caller in callers {
        for attempt in caller.log.attempts() {
            if !matches!(attempt.end, End::Commit { .. }) {
                others.push(Told {
                    attempt: *attempt,
                    accesses: caller.log.accesses_of(attempt),
                })?;
            }
        }
    }
    others.sort_by_key(|told: &Told| told.attempt.front)?;
    Ok(others)
}

/// The last state, where all attempts fit the states before it.
fn play_all(
    alloc: Global,
    opening: Vec<u64>,
    commits: &[Option<Told>],
    others: &[Told],
) -> Result<Vec<u64>, Flaw> {
    let mut memory = opening;
    let mut waiting = Vec::new(alloc);
    let mut next = 0;
    for number in 0..=commits.len() {
        next = let_in(others, next, number as u64, &mut waiting)?;
        waiting = still_waiting(alloc, waiting.as_slice(), number as u64, memory.as_slice())?;
        if let Some(commit) = commits.get(number) {
            let Some(told) = commit else {
                return Err(Flaw::Missing);
            };
            if !play(told.accesses, memory.as_mut_slice()) {
                return Err(Flaw::Commit);
            }
        }
    }
    if waiting.is_empty() {
        Ok(memory)
    } else {
        Err(Flaw::Attempt)
    }
}

/// Adds those attempts to the waiting ones that may have read from the state with this number, and says which one comes next.
fn let_in<'a>(
    others: &[Told<'a>],
    next: usize,
    number: u64,
    waiting: &mut Vec<Told<'a>>,
) -> Result<usize, Flaw> {
    for index in next..others.len() {
        let told = others[index];
        if number < told.attempt.front {
            return Ok(index);
        }
        waiting.push(told)?;
    }
    Ok(others.len())
}

/// Those that didn't read from this state.
fn still_waiting<'a>(
    alloc: Global,
    waiting: &[Told<'a>],
    number: u64,
    memory: &[u64],
) -> Result<Vec<Told<'a>>, Flaw> {
    let mut still = Vec::new(alloc);
    for told in waiting {
        if !has_read_from(alloc, told, number, memory)? {
            still.push(*told)?;
        }
    }
    Ok(still)
}

/// Whether the attempt may have read from the state with this number, which is this memory.
fn has_read_from(alloc: Global, told: &Told, number: u64, memory: &[u64]) -> Result<bool, Flaw> {
    if let End::ReadOnly { stamp } = told.attempt.end
        && stamp != number
    {
        return Ok(false);
    }
    let mut own = Vec::from_slice(alloc, memory)?;
    Ok(play(told.accesses, own.as_mut_slice()))
}

/// Plays an attempt over a memory, and says whether it read what was there.
fn play(accesses: &[Access], memory: &mut [u64]) -> bool {
    for access in accesses {
        match *access {
            Access::Read { addr, value } => {
                if memory.get(addr as usize) != Some(&value) {
                    return false;
                }
            }
            Access::Write { addr, value } => match memory.get_mut(addr as usize) {
                Some(word) => *word = value,
                None => return false,
            },
        }
    }
    true
}
