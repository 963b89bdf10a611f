//! Why a text is no script.
use thiserror::Error;

/// Why a text is no script.
#[derive(Clone, Copy, Debug, PartialEq, Eq, Drop, Error)]
pub enum ScriptError {
    /// The first line with which the text is no longer a script.
    #[error("line {line} is no line of a script")]
    BadLine { line: u64 },
    /// Want of memory.
    #[error("no memory")]
    Memory,
}
