//! Worked examples of the definitions of `specs/`, each the contract of a function that does nothing.
ghost use Rattle.tx_uses.specs.Examples.{CountsDownExample, MayRaiseExample, IsRaisedExample, NotRaisedExample, RaisesExample, RaisedExample, SeenExample, RefusedExample, HadBothExample};

/// Memories that count down, and words that are raised.
pub fn raise_examples()
    ensures counts_down { CountsDownExample }
    ensures may_raise { MayRaiseExample }
    ensures is_raised { IsRaisedExample }
    ensures not_raised { NotRaisedExample }
    ensures raises { RaisesExample }
{}

/// What a raise leaves, and what is read.
pub fn outcome_examples()
    ensures raised { RaisedExample }
    ensures seen { SeenExample }
    ensures refused { RefusedExample }
    ensures had_both { HadBothExample }
{}
