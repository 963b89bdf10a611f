//! Worked examples, each the contract of a function that does nothing at run time.
ghost use Rattle.ring_replay.specs.Examples.{EmptyExample, FirstExample};

/// Texts without the first line of a script.
pub fn bad_examples()
    ensures empty { EmptyExample }
    ensures first { FirstExample }
{}
