//! Why a text is no query.
use mail_words::Memory;
use thiserror::Error;

/// Why a text isn't a query.
#[derive(Clone, Copy, Debug, PartialEq, Eq, Drop, Error)]
pub enum QueryError {
    /// A token or a byte that can't stand where it stands, or an end where more is needed.
    #[error("a token stands where it can't")]
    Bad,
    /// A run of more than 32 letters and digits.
    #[error("a word has more than 32 letters and digits")]
    LongWord,
    /// More than 32 parentheses open at once.
    #[error("more than 32 parentheses are open at once")]
    Deep,
    /// More than 4,096 bytes.
    #[error("the text has more than 4096 bytes")]
    Long,
    /// Want of memory.
    #[error("no memory")]
    Memory,
}

impl From<Memory> for QueryError {
    ghost use Rattle.std.specs.Prelude.{◌≡◌};
    ghost use Rattle.mail_query.specs.declared.error.QueryError.TheVariants.{Memory};

    ghost from_gives = { λ _ error. error ≡ Memory };

    fn from(_: Memory) -> Self {
        QueryError::Memory
    }
}
