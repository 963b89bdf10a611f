//! The atomic steps, and what follows from the words that they find.
use tx_model::Stop;

/// One atomic step on one shared word. A slot is where an entry lies in the ring.
#[derive(Clone, Copy, Debug, PartialEq, Eq)]
pub enum Action {
    LoadIndex,
    LoadTag { slot: u64 },
    LoadSig { slot: u64, word: u64 },
    LoadHeap { addr: u64 },
    /// A compare-and-swap of the index, from `from` to the next number.
    SwapIndex { from: u64 },
    StoreTag { slot: u64, tag: u64 },
    StoreSig { slot: u64, word: u64, value: u64 },
    StoreHeap { addr: u64, value: u64 },
    /// No request is open.
    Idle,
}

/// Why a request ended before its goal, and may be made again.
#[derive(Clone, Copy, Debug, PartialEq, Eq)]
pub enum Later {
    /// The swap found this index, not the one that was checked.
    Lost { index: u64 },
    /// The newest entry has this tag: it is not published yet.
    Unpublished { stamp: u64, tag: u64 },
    /// The slot that is wanted next has this tag: its old entry is not complete yet.
    SlotBusy { stamp: u64, tag: u64 },
    /// An earlier entry has this tag: it must be complete first.
    Order { stamp: u64, tag: u64 },
}

/// What follows from a word. Every answer but `Going` ends the request.
#[derive(Clone, Copy, Debug, PartialEq, Eq)]
pub enum Progress {
    Going,
    Started { start: u64 },
    Value { value: u64 },
    Stopped { stop: Stop },
    Stamped { stamp: u64 },
    Later { later: Later },
    Completed { stamp: u64 },
    Worn { index: u64 },
}
