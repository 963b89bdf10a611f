//! Worked examples of the definitions of `specs/`, each the contract of a function that does nothing.
ghost use Rattle.tx_model.specs.Examples.{AfterExample, AfterTwiceExample, WordsInExample, WordsFromExample, StatesExample, LegalExample, NotLegalExample, WritersExample, BeginningExample, NotBeginningExample};
ghost use Rattle.tx_model.specs.Examples.{GateValueExample, ReadsAfterExample, MayReadExample, MayReadOutsideExample, MayNotReadUnseenExample, MayNotReadSealedExample, MayNotReadPublishedExample, MayOpenExample, MayWriteExample, MayWriteOpenedExample, MayNotWriteExample};
ghost use Rattle.tx_model.specs.Examples.{WellFormedExample, OverlapExample, FitsExample, FitsNotExample, CommitExample, HoldsOverExample, HoldsNotOverExample, OwnedAfterSealExample, OwnedAfterPublishExample, MayCommitExample, MayNotCommitExample, GoodHistoryExample};
ghost use Rattle.tx_model.specs.Examples.{ReadFromStateExample, NotOneStateExample, ConflictExample, NoConflictExample, OverrunExample, NoOverrunExample, AnyOrderExample, AreJoinedExample, NotJoinedExample, EndingExample, NamesApartExample, LostNameExample, MergedExample, StampsExample, NotStampsExample, WholeExample, NotAllExample};
ghost use Rattle.tx_model.specs.CallExamples.{MadeExample, BeganExample, GoesOnWithExample, OnlyReadsExample, NotOnlyReadsExample, ReadExample, WriteExample, FullExample, EndedExample, CommittedExample, OnlyReadExample, WornOutExample, ShowsExample, StoppedCommitExample, WornCommitExample, SplitPassExample, JoinedPassExample, ReadyExample, DoneExample, GaveUpExample, HadNoMoreExample, StepStoppedExample, ReadPastEndExample, StepRefusedExample, NotDoneExample, OnceNotDoneExample};
ghost use Rattle.tx_model.specs.PassExamples.{PassExample, OwnerExample, StampedExample, TogetherExample, NotTogetherExample, PastFrontExample, OwnedTwiceExample, NeverSealedExample, NotOwnedExample, OldStateExample, NotFittingExample};

/// What writes leave of a memory, and the words of a region.
pub fn memory_examples()
    ensures after { AfterExample }
    ensures twice { AfterTwiceExample }
    ensures words_in { WordsInExample }
    ensures words_from { WordsFromExample }
{}

/// The states of a history, and where it is legal.
pub fn history_examples()
    ensures states { StatesExample }
    ensures legal { LegalExample }
    ensures not_legal { NotLegalExample }
    ensures writers { WritersExample }
    ensures beginning { BeginningExample }
    ensures not_beginning { NotBeginningExample }
{}

/// What an attempt knows of a gate, and what comes to its reads.
pub fn attempt_examples()
    ensures gate_value { GateValueExample }
    ensures reads_after { ReadsAfterExample }
{}

/// Which words may be read.
pub fn may_read_examples()
    ensures inside { MayReadExample }
    ensures outside { MayReadOutsideExample }
    ensures unseen { MayNotReadUnseenExample }
    ensures while_sealed { MayNotReadSealedExample }
    ensures publishes { MayNotReadPublishedExample }
{}

/// Which words may be written.
pub fn may_write_examples()
    ensures opens { MayOpenExample }
    ensures inside { MayWriteExample }
    ensures opened { MayWriteOpenedExample }
    ensures packed { MayNotWriteExample }
{}

/// Which regions a memory may have.
pub fn region_examples()
    ensures well_formed { WellFormedExample }
    ensures overlap { OverlapExample }
{}

/// What a commit does, and what the pass owns then.
pub fn commit_examples()
    ensures fits { FitsExample }
    ensures fits_not { FitsNotExample }
    ensures commit { CommitExample }
    ensures after_seal { OwnedAfterSealExample }
    ensures after_publish { OwnedAfterPublishExample }
{}

/// Which attempts may be committed, where word 0 counts down.
pub fn sense_examples()
    ensures may { MayCommitExample }
    ensures may_not { MayNotCommitExample }
    ensures good { GoodHistoryExample }
{}

/// What holds of every memory that fits an attempt.
pub fn holds_examples()
    ensures over { HoldsOverExample }
    ensures not_over { HoldsNotOverExample }
{}

/// Reads from one state, and what shows that an attempt had to stop.
pub fn opacity_examples()
    ensures one_state { ReadFromStateExample }
    ensures no_state { NotOneStateExample }
    ensures conflict { ConflictExample }
    ensures no_conflict { NoConflictExample }
    ensures overrun { OverrunExample }
    ensures no_overrun { NoOverrunExample }
{}

/// Which names a share may have.
pub fn name_examples()
    ensures any_order { AnyOrderExample }
    ensures are_joined { AreJoinedExample }
    ensures not_joined { NotJoinedExample }
    ensures ending { EndingExample }
    ensures apart { NamesApartExample }
    ensures lost { LostNameExample }
{}

/// The numbers of a pass's commits, and a pass that knows all.
pub fn pass_examples()
    ensures merged { MergedExample }
    ensures stamps { StampsExample }
    ensures not_stamps { NotStampsExample }
    ensures whole { WholeExample }
    ensures not_all { NotAllExample }
{}

/// What always holds of a memory and of a pass.
pub fn known_examples()
    ensures made { MadeExample }
    ensures pass { PassExample }
    ensures owner { OwnerExample }
    ensures stamped { StampedExample }
{}

/// What holds of all passes together.
pub fn holder_examples()
    ensures together { TogetherExample }
    ensures not_together { NotTogetherExample }
{}

/// What holds of no pass.
pub fn refused_examples()
    ensures past_front { PastFrontExample }
    ensures owned_twice { OwnedTwiceExample }
    ensures never_sealed { NeverSealedExample }
    ensures not_owned { NotOwnedExample }
    ensures old_state { OldStateExample }
    ensures not_fitting { NotFittingExample }
{}

/// What the calls leave of an attempt that goes on.
pub fn attempt_call_examples()
    ensures began { BeganExample }
    ensures read { ReadExample }
    ensures write { WriteExample }
    ensures full { FullExample }
{}

/// What some reads leave of an attempt.
pub fn reads_examples()
    ensures with_reads { GoesOnWithExample }
    ensures only { OnlyReadsExample }
    ensures not_only { NotOnlyReadsExample }
{}

/// A stop that no attempt has come to.
pub fn stop_examples()
    ensures past_end { ReadPastEndExample }
{}

/// What the calls leave that end an attempt.
pub fn commit_call_examples()
    ensures ended { EndedExample }
    ensures committed { CommittedExample }
    ensures only_read { OnlyReadExample }
    ensures worn { WornOutExample }
    ensures shows { ShowsExample }
    ensures stopped_commit { StoppedCommitExample }
    ensures worn_commit { WornCommitExample }
{}

/// A pass that is split and joined.
pub fn split_examples()
    ensures split { SplitPassExample }
    ensures joined { JoinedPassExample }
{}

/// How an attempt that is tried may end.
pub fn try_examples()
    ensures ready { ReadyExample }
    ensures done { DoneExample }
    ensures gave_up { GaveUpExample }
    ensures no_more { HadNoMoreExample }
    ensures step_stopped { StepStoppedExample }
    ensures step_refused { StepRefusedExample }
    ensures not_done { NotDoneExample }
    ensures once_not_done { OnceNotDoneExample }
{}
