//! A word of a memory.
/// A word of the memory: where it is, and what is there.
#[derive(Clone, Copy, Debug, PartialEq, Eq)]
pub struct Word {
    pub addr: u64,
    pub value: u64,
}
