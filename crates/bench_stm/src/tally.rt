//! What is counted.

/// How attempts ended, and what they read.
#[derive(Clone, Copy)]
pub struct Tally {
    pub commits: u64,
    /// How many attempts the memory stopped.
    pub stops: u64,
    /// The sum of all words that attempts read, modulo 2^64.
    pub sum: u64,
}

impl Tally {
    pub const NOTHING: Tally = Tally {
        commits: 0,
        stops: 0,
        sum: 0,
    };

    /// Both together.
    pub fn with(self, other: Tally) -> Tally {
        Tally {
            commits: self.commits.wrapping_add(other.commits),
            stops: self.stops.wrapping_add(other.stops),
            sum: self.sum.wrapping_add(other.sum),
        }
    }
}
