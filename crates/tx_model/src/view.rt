//! What a pass stands for, and what its attempt did.
use crate::gate::Region;
use crate::history::Commit;
use crate::pass::PassState;
use crate::word::Word;
use std::collections::LinkedList;

/// A region that a pass owns. No value of it is made.
pub struct Owned {
    pub region: Region,
    /// Its words when it was sealed.
    pub at_sealing: LinkedList<u64>,
    /// Its words as the owner left them.
    pub now: LinkedList<u64>,
}

/// What a pass stands for. No value of it is made.
pub struct PassView {
    pub state: PassState,
    /// A beginning of the one history.
    pub history: LinkedList<Commit>,
    /// So many commits are known to be complete.
    pub front: u64,
    /// The numbers of its own commits, rising.
    pub mine: LinkedList<u64>,
    pub owned: LinkedList<Owned>,
    /// Its names, the newest letter first. Of all passes no name is the ending of another.
    pub share: LinkedList<LinkedList<bool>>,
}

/// What a pass did since it began. No value of it is made.
pub struct Attempt {
    /// The number of the state that it reads from.
    pub start: u64,
    pub reads: LinkedList<Word>,
    pub writes: LinkedList<Word>,
    pub sealed: LinkedList<Region>,
    pub published: LinkedList<Region>,
}
