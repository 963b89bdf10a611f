//! What the words of the memory mean.
use tx_model::Sense;

/// A memory without regions, whose first words count commits down: each commit that writes lowers their sum.
#[derive(Drop)]
pub struct Countdowns;

impl Sense for Countdowns {
    ghost use Rattle.std.specs.Prelude.{◌≡◌, []};
    ghost use Rattle.bench_stm.specs.Countdowns.{CountsDown, commits_left};

    ghost allows = { λ _ regions. regions ≡ [] };

    ghost good = { λ _. CountsDown };

    ghost budget = { λ _. commits_left };

    ghost budget_falls = { λ _ opening words good. good.left };
}
