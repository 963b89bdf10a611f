//! Why a script wasn't replayed.
ghost use Rattle.std.specs.Prelude.{◌≡◌};
ghost use Rattle.ring_replay.specs.Stops.{number_of, line_of, stop_of_reading, stop_of_writing};

use mail_io::{ReadError, WriteError};
use thiserror::Error;

/// Why a script wasn't replayed, or its trace not written.
#[derive(Clone, Copy, Debug, PartialEq, Eq, Drop, Error)]
pub enum ReplayStop {
    /// The script couldn't be read.
    #[error("reading failed")]
    ReadFault,
    /// The text is larger than the limit.
    #[error("the script is too large")]
    TooLarge,
    /// The text is no script, or an event is refused: the first line that is.
    #[error("the script is refused at line {line}")]
    BadScript { line: u64 },
    /// The trace couldn't be written.
    #[error("writing failed")]
    WriteFault,
    /// Want of memory.
    #[error("no memory")]
    Memory,
}

impl ReplayStop {
    /// The exit status.
    pub fn number(self) -> u8
        ensures { result ≡ number_of self }
    {
        match self {
            ReplayStop::ReadFault => 1,
            ReplayStop::TooLarge => 4,
            ReplayStop::BadScript { .. } => 9,
            ReplayStop::WriteFault => 6,
            ReplayStop::Memory => 7,
        }
    }

    /// The line that is refused, and 0 where none is.
    pub fn line(self) -> u64
        ensures { result ≡ line_of self }
    {
        match self {
            ReplayStop::BadScript { line } => line,
            ReplayStop::ReadFault | ReplayStop::TooLarge => 0,
            ReplayStop::WriteFault | ReplayStop::Memory => 0,
        }
    }
}

impl From<ReadError> for ReplayStop {
    ghost from_gives = { λ error stop. stop ≡ stop_of_reading error };

    fn from(error: ReadError) -> Self {
        match error {
            ReadError::Failed => ReplayStop::ReadFault,
            ReadError::TooLarge => ReplayStop::TooLarge,
            ReadError::Memory => ReplayStop::Memory,
        }
    }
}

impl From<WriteError> for ReplayStop {
    ghost from_gives = { λ error stop. stop ≡ stop_of_writing error };

    fn from(error: WriteError) -> Self {
        match error {
            WriteError::Failed { .. } => ReplayStop::WriteFault,
            WriteError::Memory { .. } => ReplayStop::Memory,
        }
    }
}
