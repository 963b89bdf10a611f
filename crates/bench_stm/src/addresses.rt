//! Where the words of the memory lie, and which of them an attempt touches.
ghost use Rattle.std.specs.Prelude.{◌<◌, ◌≤◌};

/// The first words count commits down. Each thread has one of them, on a cache line of its own.
pub const COUNTS: u64 = 32;

/// So many accounts lie behind them.
pub const ACCOUNTS: u64 = 1024;

/// The number of words.
pub const WORDS: u64 = COUNTS + ACCOUNTS;

/// How many words lie from one thread's count to the next one's.
pub const APART: u64 = 8;

/// An odd number near 2^64 divided by the golden ratio.
const MIX: u64 = 0x9E37_79B9_7F4A_7C15;

/// The word of an account, by a number that may be any.
pub fn account(number: u64) -> u64
    ensures account { COUNTS ≤ result }
    ensures within { result < WORDS }
{
    COUNTS + number % ACCOUNTS
}

/// A number that looks drawn, for a round of a thread.
pub fn drawn(thread: u64, round: u64) -> u64 {
    round
        .wrapping_add(thread.wrapping_mul(1 << 32))
        .wrapping_mul(MIX)
        >> 40
}
