//! Laws about the definitions of `specs/` and worked examples of them, each the contract of a function that does nothing.
ghost use Rattle.tx_postings.specs.Laws.{StaysStill, MovesThen, CommitMoves, FilledMoves, LeftMoves, ListedRows, ListedOnce};
ghost use Rattle.tx_postings.specs.Examples.{BatchExample, AddsExample, LostRowExample, TakesExample, ShortExample, EnoughExample};
ghost use Rattle.tx_postings.specs.Examples.{ListExample, EndsEarlyExample, PackedExample, SealedExample};
ghost use Rattle.tx_postings.specs.Examples.{MoveExample, OpensMoveExample, NeedRisesExample, GateFallsExample};

/// What moves an index: nothing, one move after another, and the commits of a batch and of a full segment that is left.
pub fn move_laws()
    ensures none { StaysStill }
    ensures then { MovesThen }
    ensures commit { CommitMoves }
    ensures filled { FilledMoves }
    ensures left { LeftMoves }
{}

/// The messages that are listed are those of the rows, and none is listed twice.
pub fn list_laws()
    ensures rows { ListedRows }
    ensures once { ListedOnce }
{}

/// The next words of a message, and what their coming changes.
pub fn batch_examples()
    ensures batch { BatchExample }
    ensures adds { AddsExample }
    ensures lost_row { LostRowExample }
{}

/// How many words a batch takes, and whether a segment has as many.
pub fn room_examples()
    ensures takes { TakesExample }
    ensures short { ShortExample }
    ensures enough { EnoughExample }
{}

/// The messages of a key, in two segments of its lane.
pub fn list_examples()
    ensures list { ListExample }
    ensures ends_early { EndsEarlyExample }
    ensures packed { PackedExample }
    ensures met_sealed { SealedExample }
{}

/// What those who index may do to an index, and what they may not.
pub fn move_examples()
    ensures moves { MoveExample }
    ensures opens { OpensMoveExample }
    ensures need_rises { NeedRisesExample }
    ensures gate_falls { GateFallsExample }
{}
