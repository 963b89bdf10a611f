//! One caller of a world, as contracts see it.

use ring_core::Caller;
use std::collections::LinkedList;
use tx_model::{Owned, Region, Word};

/// One caller of a world: its machine, and what it knows beside it. No value of it is made.
pub struct Process {
    pub caller: Caller,
    /// So many commits are known to be complete.
    pub front: u64,
    /// What its attempt read, but for what it had written itself.
    pub reads: LinkedList<Word>,
    /// The regions that its attempt seals.
    pub sealed: LinkedList<Region>,
    /// The regions that its attempt publishes.
    pub published: LinkedList<Region>,
    pub owned: LinkedList<Owned>,
}
