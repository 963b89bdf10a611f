//! Facts about the region rule, and worked examples, each the contract of a function that does nothing.
ghost use Rattle.tx_model.specs.RuleLaws.{StartFollows, LaterStartFollows, ReadFollows, WriteFollows, SealFollows, PublishFollows, CommitFollows};
ghost use Rattle.tx_model.specs.RuleLaws.{GateRises, WritesBelow, EndsAbove, CarriesNoGate, GatesRise, WrittenGateRises, ClosedAfter, WordsStay, PackedStays};
ghost use Rattle.tx_model.specs.RuleExamples.{OpeningFollowsExample, UnseenGateExample, ReopenedExample, SealingFollowsExample, PublishingFollowsExample, LostWordExample, StrayWordExample, RuledExample, GateAtExample};
ghost use Rattle.tx_model.specs.RuleExamples.{MaySealExample, MayNotSealExample, WithSealExample, MayPublishExample, MayNotPublishExample, WithPublishExample};

/// An attempt that does only what it may follows the rule, and its commit does.
pub fn attempts_follow()
    ensures start { StartFollows }
    ensures later_start { LaterStartFollows }
    ensures read { ReadFollows }
    ensures write { WriteFollows }
    ensures seal { SealFollows }
    ensures publish { PublishFollows }
    ensures commit { CommitFollows }
{}

/// What a commit that follows the rule does at a gate.
pub fn commits_follow()
    ensures rises { GateRises }
    ensures below { WritesBelow }
    ensures above { EndsAbove }
    ensures carries { CarriesNoGate }
{}

/// Gates along a history, and what stays where they stay.
pub fn gates_along()
    ensures rise { GatesRise }
    ensures written { WrittenGateRises }
    ensures closed { ClosedAfter }
    ensures words { WordsStay }
    ensures packed { PackedStays }
{}

/// Attempts and commits that follow the rule, and some that don't.
pub fn rule_examples()
    ensures opens { OpeningFollowsExample }
    ensures unseen { UnseenGateExample }
    ensures reopened { ReopenedExample }
    ensures seals { SealingFollowsExample }
    ensures publishes { PublishingFollowsExample }
    ensures lost { LostWordExample }
    ensures stray { StrayWordExample }
    ensures ruled { RuledExample }
    ensures gates { GateAtExample }
{}

/// Sealing and publishing in an attempt.
pub fn seal_examples()
    ensures may_seal { MaySealExample }
    ensures sealed { MayNotSealExample }
    ensures with_seal { WithSealExample }
    ensures may_publish { MayPublishExample }
    ensures published { MayNotPublishExample }
    ensures with_publish { WithPublishExample }
{}
