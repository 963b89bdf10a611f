//! The sizes of a ring.
/// The sizes of a ring: its entries, the words of a signature, the words of the heap, and the commits that it may have.
#[derive(Clone, Copy, Debug, PartialEq, Eq)]
pub struct Shape {
    pub ring: u64,
    pub sig_words: u64,
    pub heap: u64,
    pub life: u64,
}
