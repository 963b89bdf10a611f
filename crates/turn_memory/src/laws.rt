//! Worked examples of the definitions of `specs/`, each the contract of a function that does nothing.
ghost use Rattle.turn_memory.specs.Examples.{WrittenExample, WrittenAgainExample, WordsExample, ValuesExample, ReadExample, HoldsLastExample, AttemptOnExample, BothPassesExample, PlainExample, NotPlainExample, NoneSealedExample, SeatExample, NotSeatExample, FreeExample, TakenExample, TableExample, NotTableExample, HistoryExample, NotHistoryExample, TakesExample, TakesNothingExample, LooksExample, ReleasesExample, PublishesExample, MayReleaseExample, MayNotReleaseExample, MayPublishExample, MayNotPublishExample, OpenExample, NotOpenExample, WrittenTwiceExample, RestingExample, AtWorkExample};

/// What reads and writes leave of a heap, and what it holds.
pub fn heap_examples()
    ensures written { WrittenExample }
    ensures again { WrittenAgainExample }
    ensures words { WordsExample }
    ensures values { ValuesExample }
    ensures read { ReadExample }
    ensures last { HoldsLastExample }
    ensures attempt { AttemptOnExample }
{}

/// What is known of a pass, and two passes as one.
pub fn pass_examples()
    ensures both { BothPassesExample }
    ensures plain { PlainExample }
    ensures not_plain { NotPlainExample }
    ensures seat { SeatExample }
    ensures not_seat { NotSeatExample }
{}

/// What the rule says of the history and of the lock.
pub fn rule_examples()
    ensures none_sealed { NoneSealedExample }
    ensures history { HistoryExample }
    ensures not_history { NotHistoryExample }
    ensures free { FreeExample }
    ensures taken { TakenExample }
    ensures table { TableExample }
    ensures not_table { NotTableExample }
{}

/// What the steps tell, and when a seat may make them.
pub fn step_examples()
    ensures takes { TakesExample }
    ensures takes_nothing { TakesNothingExample }
    ensures looks { LooksExample }
    ensures releases { ReleasesExample }
    ensures publishes { PublishesExample }
    ensures may_release { MayReleaseExample }
    ensures may_not_release { MayNotReleaseExample }
    ensures may_publish { MayPublishExample }
    ensures may_not_publish { MayNotPublishExample }
{}

/// A pass with the heap of its attempt, and one without.
pub fn heap_pass_examples()
    ensures open { OpenExample }
    ensures not_open { NotOpenExample }
    ensures written_twice { WrittenTwiceExample }
    ensures resting { RestingExample }
    ensures at_work { AtWorkExample }
{}
