//! Why no mailbox is made.
use std::alloc::AllocError;
use thiserror::Error;

/// Why no mailbox is made.
#[derive(Clone, Copy, Debug, PartialEq, Eq, Error)]
pub enum GenError {
    /// More than 100,000 messages were asked for.
    #[error("more than 100000 messages")]
    TooMany,
    /// Want of memory.
    #[error("no memory")]
    Memory,
}

impl From<AllocError> for GenError {
    ghost use Rattle.std.specs.Prelude.{◌≡◌};
    ghost use Rattle.mail_gen.specs.declared.error.GenError.TheVariants.{Memory};

    ghost from_gives = { λ _ e. e ≡ Memory };

    fn from(_: AllocError) -> Self {
        GenError::Memory
    }
}
