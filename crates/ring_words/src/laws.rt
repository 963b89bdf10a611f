//! Worked examples, each the contract of a function that does nothing.
ghost use Rattle.ring_words.specs.Examples.{RingExample, TooEarlyExample, OtherWordExample};

use ring_worlds::laws::run_examples;
use tx_model::laws::split_shares;

/// A table whose one seat is in the middle of its write-back, and tables to which a wrong step would have led.
pub fn rule_examples()
    ensures meets { RingExample }
    ensures too_early { TooEarlyExample }
    ensures other_word { OtherWordExample }
{
    run_examples();
    split_shares();
}
