//! The stages of an open request.
/// How far an open request is, by the step that comes next.
#[derive(Clone, Copy)]
pub enum Stage {
    /// No request is open.
    Closed,
    /// A beginning is to load the index.
    BeginIndex,
    /// A beginning that loaded the index `top` is to load the tag of entry `at`.
    BeginTag { top: u64, at: u64 },
    /// A read is to load its word.
    ReadHeap { addr: u64 },
    /// A read or a stamp checks the newer entries.
    Check { purpose: Purpose, stage: CheckStage },
    /// A stamp whose check loaded `top` is to load the tag of the slot that it wants.
    StampSlot { top: u64 },
    /// That stamp is to swap the index.
    StampSwap { top: u64 },
    /// A turn writes back.
    Turn { stage: TurnStage },
    /// A stamped caller is between two turns, and the next one goes on here.
    Between { stage: TurnStage },
}

/// What a check is made for.
#[derive(Clone, Copy)]
pub enum Purpose {
    /// This value was loaded from the word.
    Read { addr: u64, value: u64 },
    Stamp,
}

/// How far a check is.
#[derive(Clone, Copy)]
pub enum CheckStage {
    /// The index is to be loaded.
    Index,
    /// The tag of the entry is to be loaded.
    First { walk: Walk },
    /// A word of its signature is to be loaded.
    Words { walk: Walk, word: u64 },
    /// Its tag is to be loaded again.
    Second { walk: Walk },
}

/// A walk from entry `top` downwards that is at entry `at`. The start becomes `candidate` where the walk ends.
#[derive(Clone, Copy)]
pub struct Walk {
    pub top: u64,
    pub at: u64,
    pub candidate: u64,
}

/// How far the writing back of an entry is.
#[derive(Clone, Copy)]
pub enum TurnStage {
    /// The tag `filling` is to be stored.
    Filling,
    /// A word of the signature is to be stored.
    Signature { word: u64 },
    /// The tag `writing` is to be stored.
    Writing,
    /// The tag of the earlier entry `at` is to be loaded.
    Earlier { at: u64 },
    /// A word of that entry's signature is to be loaded.
    EarlierWords { at: u64, word: u64 },
    /// That entry's tag is to be loaded until it is complete.
    EarlierAgain { at: u64 },
    /// A word of the write set is to be stored.
    Heap { index: u64 },
    /// The tag of the entry before is to be loaded until it is complete.
    Before,
    /// The tag `complete` is to be stored.
    Complete,
}
