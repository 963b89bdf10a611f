//! A commit of the history.
use crate::gate::Region;
use crate::word::Word;
use std::collections::LinkedList;

/// One entry of the history: an attempt that wrote and committed.
#[derive(Drop)]
pub struct Commit {
    /// What it read, but for what it had written itself.
    pub reads: LinkedList<Word>,
    /// What it wrote, each address once.
    pub writes: LinkedList<Word>,
    pub sealed: LinkedList<Region>,
    pub published: LinkedList<Region>,
    /// All words of the regions that it published, as their owner left them.
    pub carry: LinkedList<Word>,
}
