//! Facts about the definitions of `specs/`, each the contract of a function that does nothing.
ghost use Rattle.ring_core.specs.Examples.{BeginExample, BeginBelowExample, PassedOverExample, ReadExample, MetExample, OverrunIndexExample, OverrunFirstExample, OverrunSecondExample, StampedExample, LostExample, UnpublishedExample, SlotBusyExample, WornExample, WaitsForEarlierExample, WaitsForOrderExample};
ghost use Rattle.ring_core.specs.SoundExamples.{SoundExample, LeftOverExample, LeftReadExample, StaleStampExample, WroteTwiceExample, PastHeapExample, LargerSignatureExample, LowCandidateExample, WriteMovesExample, NoReadOfWrittenExample, NoEmptyStampExample, TagsExample, KindsExample};
ghost use Rattle.ring_core.specs.Chains.{OneWriteExample, ForgottenWriteExample};
ghost use Rattle.ring_core.specs.Laws.{StepKeeps, MoveKeeps, OpeningIsSound};

use tx_model::laws::put_addresses;

/// Where an attempt starts.
pub fn begin_examples()
    ensures among { BeginExample }
    ensures below { BeginBelowExample }
{}

/// What the check of a read may find.
pub fn read_examples()
    ensures passed_over { PassedOverExample }
    ensures read { ReadExample }
    ensures met { MetExample }
    ensures overrun_index { OverrunIndexExample }
    ensures overrun_first { OverrunFirstExample }
    ensures overrun_second { OverrunSecondExample }
{}

/// How a stamp may end.
pub fn stamp_examples()
    ensures stamped { StampedExample }
    ensures lost { LostExample }
    ensures unpublished { UnpublishedExample }
    ensures busy { SlotBusyExample }
    ensures worn { WornExample }
{}

/// Where a turn may wait.
pub fn turn_examples()
    ensures earlier { WaitsForEarlierExample }
    ensures order { WaitsForOrderExample }
{}

/// A caller of which all holds that always does, and callers that can't be.
pub fn sound_examples()
    ensures sound { SoundExample }
    ensures left_over { LeftOverExample }
    ensures left_read { LeftReadExample }
    ensures stale_stamp { StaleStampExample }
    ensures wrote_twice { WroteTwiceExample }
    ensures past_heap { PastHeapExample }
    ensures larger_signature { LargerSignatureExample }
    ensures low_candidate { LowCandidateExample }
{}

/// What a caller may do without a step, and what it may not.
pub fn move_examples()
    ensures write { WriteMovesExample }
    ensures no_read { NoReadOfWrittenExample }
    ensures no_stamp { NoEmptyStampExample }
{}

/// The tags of an entry, and the kinds of a few steps.
pub fn number_examples()
    ensures tags { TagsExample }
    ensures kinds { KindsExample }
{}

/// A write that its chain finds, and one that it doesn't.
pub fn chain_examples()
    ensures found { OneWriteExample }
    ensures forgotten { ForgottenWriteExample }
{
    put_addresses();
}

/// What always holds of a caller holds at first.
pub fn opening_is_sound()
    ensures { OpeningIsSound }
{}

/// A move without a step keeps what holds of a caller.
pub fn move_keeps()
    ensures { MoveKeeps }
{
    put_addresses();
}

/// A step keeps what holds of a caller, and leaves fewer steps.
pub fn step_keeps()
    ensures { StepKeeps }
{}
