//! Want of memory.
use std::alloc::{AllocError, AllocFailed};
use std::error::Error;
use std::fmt;

/// Want of memory.
#[derive(Clone, Copy, Debug, PartialEq, Eq)]
pub struct Memory;

impl fmt::Display for Memory {
    ghost use Rattle.std.specs.Prelude.{codes};
    ghost use Rattle.std.specs.declared.option.Option.TheVariants.{Some};

    ghost output = { λ _. Some (codes "no memory") };

    fn fmt<W: fmt::Write>(&self, f: &mut fmt::Formatter<W>) -> fmt::Result {
        write!(f, "no memory")
    }
}

impl Error for Memory {}

impl From<AllocError> for Memory {
    fn from(_: AllocError) -> Self {
        Memory
    }
}

impl<T: Drop> From<AllocFailed<T>> for Memory {
    fn from(_: AllocFailed<T>) -> Self {
        Memory
    }
}
