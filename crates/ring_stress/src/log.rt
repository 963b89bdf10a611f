//! What a caller keeps of its attempts.
use std::alloc::Global;

/// How an attempt ended.
#[derive(Clone, Copy, PartialEq, Eq)]
pub enum End {
    /// It is this commit.
    Commit { stamp: u64 },
    /// It wrote nothing, and read from the state with this number.
    ReadOnly { stamp: u64 },
    /// It was stopped or given up.
    Over,
}

/// A word that an attempt read or wrote.
#[derive(Clone, Copy)]
pub enum Access {
    Read { addr: u64, value: u64 },
    Write { addr: u64, value: u64 },
}

/// An attempt, whose accesses stand in the log from one index up to another.
#[derive(Clone, Copy)]
pub struct Attempt {
    /// What the caller knew to be complete when it began.
    pub front: u64,
    pub from: usize,
    pub to: usize,
    pub end: End,
}

/// All attempts of a caller.
#[derive(Drop)]
pub struct Log {
    accesses: Vec<Access>,
    attempts: Vec<Attempt>,
    /// Where the accesses of the open attempt begin.
    from: usize,
    /// The number of a state that is complete, so far as the caller was told.
    pub front: u64,
    /// For want of memory something is missing.
    pub torn: bool,
}

impl Log {
    pub fn new(alloc: Global) -> Log {
        Log {
            accesses: Vec::new(alloc),
            attempts: Vec::new(alloc),
            from: 0,
            front: 0,
            torn: false,
        }
    }

    pub fn note(&mut self, access: Access) {
        if self.accesses.push(access).is_err() {
            self.torn = true;
        }
    }

    /// The open attempt has ended. What its end names is complete by now.
    pub fn close(&mut self, end: End) {
        let to = self.accesses.len();
        let attempt = Attempt {
            front: self.front,
            from: self.from,
            to,
            end,
        };
        if self.attempts.push(attempt).is_err() {
            self.torn = true;
        }
        self.from = to;
        match end {
            End::Commit { stamp } | End::ReadOnly { stamp } => self.front = self.front.max(stamp),
            End::Over => {}
        }
    }

    pub fn attempts(&self) -> &[Attempt] {
        self.attempts.as_slice()
    }

    /// What an attempt read and wrote, in order.
    pub fn accesses_of(&self, attempt: &Attempt) -> &[Access] {
        match self.accesses.get(attempt.from..attempt.to) {
            Some(accesses) => accesses,
            None => &[],
        }
    }
}
