//! Why a mailbox isn't cut.
use std::alloc::AllocFailed;
use thiserror::Error;

/// Why a mailbox isn't cut.
#[derive(Clone, Copy, Debug, PartialEq, Eq, Error)]
pub enum CutError {
    /// The first line that isn't empty doesn't begin with `From `.
    #[error("the first line doesn't begin with `From `")]
    NotMbox,
    /// There are more messages than the limit.
    #[error("there are more messages than the limit")]
    TooMany,
    /// Want of memory.
    #[error("no memory")]
    Memory,
}

impl<T: Drop> From<AllocFailed<T>> for CutError {
    ghost use Rattle.std.specs.Prelude.{◌≡◌};
    ghost use Rattle.mbox_cut.specs.declared.error.CutError.TheVariants.{Memory};

    ghost from_gives = { λ _ e. e ≡ Memory };

    fn from(_: AllocFailed<T>) -> Self {
        CutError::Memory
    }
}
