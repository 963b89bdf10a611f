//! What a call of this crate answers where it doesn't answer `Ok`.
ghost use Rattle.std.specs.Prelude.{◌≡◌, Some, codes};
ghost use Rattle.mail_io.specs.Texts.{put_error_text, read_error_text, write_error_text};
ghost use Rattle.mail_io.specs.declared.errors.ReadError.TheVariants as ReadError;

use std::alloc::AllocError;
use std::error::Error;
use std::fmt;

/// A source couldn't be read.
#[derive(Clone, Copy, Debug, PartialEq, Eq)]
pub struct Failed;

/// Want of memory.
#[derive(Clone, Copy, Debug, PartialEq, Eq)]
pub struct Memory;

/// Why a sink took nothing.
#[derive(Clone, Copy, Debug, PartialEq, Eq)]
pub enum PutError {
    Failed,
    Memory,
}

/// Why not all of a source was read.
#[derive(Clone, Copy, Debug, PartialEq, Eq)]
pub enum ReadError {
    Failed,
    TooLarge,
    Memory,
}

/// Why not all bytes were written, and how many were.
#[derive(Clone, Copy, Debug, PartialEq, Eq)]
pub enum WriteError {
    Failed { sent: u64 },
    Memory { sent: u64 },
}

impl fmt::Display for Failed {
    ghost output = { λ _. Some (codes "reading failed") };

    fn fmt<W: fmt::Write>(&self, f: &mut fmt::Formatter<W>) -> fmt::Result {
        write!(f, "reading failed")
    }
}

impl fmt::Display for Memory {
    ghost output = { λ _. Some (codes "no memory") };

    fn fmt<W: fmt::Write>(&self, f: &mut fmt::Formatter<W>) -> fmt::Result {
        write!(f, "no memory")
    }
}

impl fmt::Display for PutError {
    ghost output = { λ e. Some (put_error_text e) };

    fn fmt<W: fmt::Write>(&self, f: &mut fmt::Formatter<W>) -> fmt::Result {
        match self {
            PutError::Failed => write!(f, "writing failed"),
            PutError::Memory => write!(f, "no memory"),
        }
    }
}

impl fmt::Display for ReadError {
    ghost output = { λ e. Some (read_error_text e) };

    fn fmt<W: fmt::Write>(&self, f: &mut fmt::Formatter<W>) -> fmt::Result {
        match self {
            ReadError::Failed => write!(f, "reading failed"),
            ReadError::TooLarge => write!(f, "the input is too large"),
            ReadError::Memory => write!(f, "no memory"),
        }
    }
}

impl fmt::Display for WriteError {
    ghost output = { λ e. Some (write_error_text e) };

    fn fmt<W: fmt::Write>(&self, f: &mut fmt::Formatter<W>) -> fmt::Result {
        match self {
            WriteError::Failed { sent } => write!(f, "writing failed after {sent} bytes"),
            WriteError::Memory { sent } => write!(f, "no memory after {sent} bytes"),
        }
    }
}

impl Error for Failed {}

impl Error for Memory {}

impl Error for PutError {}

impl Error for ReadError {}

impl Error for WriteError {}

impl From<AllocError> for ReadError {
    ghost from_gives = { λ _ e. e ≡ ReadError.Memory };

    fn from(_: AllocError) -> Self {
        ReadError::Memory
    }
}
