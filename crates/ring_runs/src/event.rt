//! The events of a schedule.

/// What an event asks of a caller. All but `Step` and `Run` are requests, which open, or moves, which are made at once.
#[derive(Clone, Copy)]
pub enum Act {
    /// Opens a beginning.
    Begin,
    /// Opens a read, or answers it at once where the attempt has written the word.
    Read { addr: u64 },
    /// Puts a write into the write set.
    Write { addr: u64, value: u64 },
    /// Opens a stamp.
    Stamp,
    /// Opens a turn.
    Turn,
    /// Ends an attempt that wrote nothing.
    Done,
    /// Ends an attempt with no commit.
    GiveUp,
    /// Seals the region of this number.
    Seal { region: u64 },
    /// Publishes the region of this number.
    Publish { region: u64 },
    /// Opens a load of an owned word.
    Load { addr: u64 },
    /// Opens a store of an owned word.
    Store { addr: u64, value: u64 },
    /// Makes so many atomic steps of the open request.
    Step { count: u64 },
    /// Makes atomic steps until the open request has ended.
    Run,
}

/// One event: a caller, what it is asked, and the line of the script that asks it.
#[derive(Clone, Copy)]
pub struct Event {
    pub who: u64,
    pub act: Act,
    pub line: u64,
}
