//! How a run ends.
ghost use Rattle.std.specs.Prelude.{◌≡◌};
ghost use Rattle.mail_search.specs.Statuses.{number_of, status_of_line, status_of_making, status_of_reading, status_of_cutting, status_of_listing, status_of_stop, status_of_writing};
ghost use Rattle.mail_search.specs.declared.status.Status.TheVariants as Ending;

use mail_gen::GenError;
use mail_io::{ReadError, WriteError};
use mail_line::LineError;
use mail_query::QueryError;
use mail_words::ListsError;
use mbox_cut::CutError;
use ring_replay::ReplayStop;
use std::alloc::AllocFailed;
use tx_model::Memory;

/// How a run ended.
#[derive(Clone, Copy)]
pub enum Status {
    /// The answers, or the trace of a script, were written.
    Done,
    /// The input couldn't be read.
    ReadFault,
    /// The words of the command line aren't what the program takes.
    Usage,
    /// The input is no mailbox.
    NotMbox,
    /// The input is larger than the limit.
    TooLarge,
    /// A word of the command line is no query: its number, from 1, and why.
    BadQuery { query: u8, error: QueryError },
    /// The answers, or the trace, couldn't be written.
    WriteFault,
    /// Want of memory.
    Memory,
    /// The mailbox has more messages than the limit.
    TooManyMessages,
    /// The messages have more words than the limit, each counted once a message.
    TooManyPostings,
    /// The input is no script, or one of its events is refused: the line of that.
    BadScript { line: u64 },
}

impl Status {
    /// The exit status.
    pub fn number(self) -> u8
        ensures { result ≡ number_of self }
    {
        match self {
            Status::Done => 0,
            Status::ReadFault => 1,
            Status::Usage => 2,
            Status::NotMbox => 3,
            Status::TooLarge => 4,
            Status::BadQuery { .. } => 5,
            Status::WriteFault => 6,
            Status::Memory => 7,
            Status::TooManyMessages | Status::TooManyPostings => 8,
            Status::BadScript { .. } => 9,
        }
    }
}

impl From<LineError> for Status {
    ghost from_gives = { λ error status. status ≡ status_of_line error };

    fn from(error: LineError) -> Self {
        match error {
            LineError::Usage => Status::Usage,
            LineError::Memory => Status::Memory,
        }
    }
}

impl From<GenError> for Status {
    ghost from_gives = { λ error status. status ≡ status_of_making error };

    fn from(error: GenError) -> Self {
        match error {
            GenError::TooMany => Status::Usage,
            GenError::Memory => Status::Memory,
        }
    }
}

impl From<ReadError> for Status {
    ghost from_gives = { λ error status. status ≡ status_of_reading error };

    fn from(error: ReadError) -> Self {
        match error {
            ReadError::Failed => Status::ReadFault,
            ReadError::TooLarge => Status::TooLarge,
            ReadError::Memory => Status::Memory,
        }
    }
}

impl From<CutError> for Status {
    ghost from_gives = { λ error status. status ≡ status_of_cutting error };

    fn from(error: CutError) -> Self {
        match error {
            CutError::NotMbox => Status::NotMbox,
            CutError::TooMany => Status::TooManyMessages,
            CutError::Memory => Status::Memory,
        }
    }
}

impl From<ListsError> for Status {
    ghost from_gives = { λ error status. status ≡ status_of_listing error };

    fn from(error: ListsError) -> Self {
        match error {
            ListsError::TooMany => Status::TooManyPostings,
            ListsError::Memory => Status::Memory,
        }
    }
}

impl From<WriteError> for Status {
    ghost from_gives = { λ error status. status ≡ status_of_writing error };

    fn from(error: WriteError) -> Self {
        match error {
            WriteError::Failed { .. } => Status::WriteFault,
            WriteError::Memory { .. } => Status::Memory,
        }
    }
}

impl From<ReplayStop> for Status {
    ghost from_gives = { λ stop status. status ≡ status_of_stop stop };

    fn from(stop: ReplayStop) -> Self {
        match stop {
            ReplayStop::ReadFault => Status::ReadFault,
            ReplayStop::TooLarge => Status::TooLarge,
            ReplayStop::BadScript { line } => Status::BadScript { line },
            ReplayStop::WriteFault => Status::WriteFault,
            ReplayStop::Memory => Status::Memory,
        }
    }
}

impl From<Memory> for Status {
    ghost from_gives = { λ _ status. status ≡ Ending.Memory };

    fn from(_: Memory) -> Self {
        Status::Memory
    }
}

impl<T: Drop> From<AllocFailed<T>> for Status {
    ghost from_gives = { λ _ status. status ≡ Ending.Memory };

    fn from(_: AllocFailed<T>) -> Self {
        Status::Memory
    }
}
