//! Worked examples of the definitions of `specs/`, each the contract of a function that does nothing.
ghost use Rattle.tx_heap.specs.Examples.{OpenRowsExample, InFormExample, OneKeyTwiceExample, WrongFreeExample, BareRecordExample};
ghost use Rattle.tx_heap.specs.Examples.{PackedRowsExample, PackedExample, FallingMessagesExample};
ghost use Rattle.tx_heap.specs.Examples.{RowsExample, IndexExample, BudgetExample, NeedTooHighExample, OwnSealedExample};
ghost use Rattle.tx_heap.specs.Examples.{FreshExample, LaneSegmentsExample, UnusedExample, FullExample};
ghost use Rattle.tx_heap.specs.Examples.{OpenedSegmentExample, FoundUnusedExample, FreshWritesExample, MadeFreshExample};
ghost use Rattle.tx_heap.specs.Examples.{OpeningExample, OpeningSizeExample, OpeningNeedsExample, OpeningRowsExample, OpeningBudgetExample};

/// Two keys in three messages, in an open segment.
pub fn segment_examples()
    ensures rows { OpenRowsExample }
    ensures in_form { InFormExample }
    ensures one_key_twice { OneKeyTwiceExample }
    ensures wrong_free { WrongFreeExample }
    ensures bare_record { BareRecordExample }
{}

/// The same rows, packed.
pub fn packed_examples()
    ensures rows { PackedRowsExample }
    ensures packed { PackedExample }
    ensures falling_messages { FallingMessagesExample }
{}

/// An index of one lane and two segments.
pub fn index_examples()
    ensures rows { RowsExample }
    ensures good { IndexExample }
    ensures budget { BudgetExample }
    ensures need_too_high { NeedTooHighExample }
    ensures own_sealed { OwnSealedExample }
{}

/// A fresh segment in front of a lane's own one.
pub fn fresh_examples()
    ensures fresh { FreshExample }
    ensures lane { LaneSegmentsExample }
    ensures unused { UnusedExample }
    ensures full { FullExample }
{}

/// What calls leave of an attempt.
pub fn attempt_examples()
    ensures opened { OpenedSegmentExample }
    ensures unused { FoundUnusedExample }
    ensures writes { FreshWritesExample }
    ensures not_fresh { MadeFreshExample }
{}

/// The opening of the index of three messages.
pub fn opening_examples()
    ensures good { OpeningExample }
    ensures size { OpeningSizeExample }
    ensures needs { OpeningNeedsExample }
    ensures rows { OpeningRowsExample }
    ensures budget { OpeningBudgetExample }
{}
