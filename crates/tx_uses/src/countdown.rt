//! Memories that count down.
ghost use Rattle.std.specs.Prelude.{◌≡◌, []};
ghost use Rattle.tx_uses.specs.Countdown.{CountsDown, count_of};

use tx_model::Sense;

/// A memory without regions. Its word 0 says how many commits there may still be, and each commit lowers it.
#[derive(Drop)]
pub struct Countdown;

impl Sense for Countdown {
    ghost allows = { λ _ regions. regions ≡ [] };

    ghost good = { λ _. CountsDown };

    ghost budget = { λ _. count_of };

    ghost budget_falls = { λ _ opening words good. good.count };
}
