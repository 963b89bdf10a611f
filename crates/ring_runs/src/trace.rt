//! What replaying a schedule tells.
ghost use Rattle.std.specs.Prelude.{◌≡◌};

use ring_core::Later;
use ring_state::Words;
use std::marker::Model;
use thiserror::Error;

/// The answer of a request, or of an event that is done at once and has something to tell.
#[derive(Clone, Copy)]
pub enum Happened {
    /// A beginning: the attempt reads from this state on.
    Start { start: u64 },
    /// A read.
    Value { addr: u64, value: u64 },
    /// The attempt was stopped: entry `stamp` may have written what it has read.
    Met { stamp: u64 },
    /// The attempt was stopped: entry `stamp` can no longer be compared, where `seen` commits have happened.
    Overrun { stamp: u64, seen: u64 },
    /// The write set has no room for another address.
    Full,
    /// The attempt's commit has this number in the history.
    Stamped { stamp: u64 },
    /// The request ended before its goal, and may be made again.
    Later { later: Later },
    /// The commit of this number is complete.
    Completed { stamp: u64 },
    /// The ring has had all the commits that it may have.
    Worn { index: u64 },
    /// An attempt that wrote nothing has read from this state.
    Done { stamp: u64 },
    /// A load of an owned word.
    Loaded { addr: u64, value: u64 },
    /// A store of an owned word.
    Stored { addr: u64, value: u64 },
}

/// One line of a trace: what a caller was answered.
#[derive(Clone, Copy)]
pub struct TraceLine {
    pub who: u64,
    pub what: Happened,
}

/// Lines of a trace, which contracts see as their list.
#[derive(Drop)]
pub struct TraceLines {
    items: Vec<TraceLine>,
}

impl Model for TraceLines {
    ghost use Rattle.std.specs.Prelude.{List};
    ghost use Rattle.ring_runs.specs.declared.trace.TraceLine.{TraceLine};

    ghost Value = { List TraceLine };

    ghost view = { λ t. t.items.items };
}

impl TraceLines {
    pub fn of(items: Vec<TraceLine>) -> TraceLines
        ensures { result ≡ items.items }
    {
        TraceLines { items }
    }

    pub fn as_slice(&self) -> &[TraceLine]
        ensures { result.now ≡ self.now }
    {
        self.items.as_slice()
    }
}

/// What a schedule led to: what the callers were answered, how many commits there are, and the words of the memory.
#[derive(Drop)]
pub struct Trace {
    pub lines: TraceLines,
    pub index: u64,
    pub words: Words,
}

/// Why a schedule wasn't replayed. `at` is the index of the first event that is refused, from 0.
#[derive(Clone, Copy, Debug, Drop, Error)]
pub enum ReplayError {
    /// There is no such caller.
    #[error("event {at} asks a caller that isn't there")]
    NoCaller { at: u64 },
    /// The caller isn't where it may be asked for this, or the rule of regions doesn't allow it.
    #[error("event {at} can't be made now")]
    NotNow { at: u64 },
    /// There is no such word or region.
    #[error("event {at} names a word or region that isn't there")]
    OutOfRange { at: u64 },
    /// Want of memory.
    #[error("no memory")]
    Memory,
}
