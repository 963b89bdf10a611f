//! What the words of the memory mean.
use tx_model::Sense;

/// How many callers there may be. The first words of the memory count their commits down, one word for each of them.
pub const CALLERS: u64 = 8;

/// A memory without regions, whose first words count commits down: each commit that writes lowers their sum.
#[derive(Drop)]
pub struct Counts;

impl Sense for Counts {
    ghost use Rattle.std.specs.Prelude.{◌≡◌, []};
    ghost use Rattle.ring_stress.specs.Counts.{CountsDown, commits_left};

    ghost allows = { λ _ regions. regions ≡ [] };

    ghost good = { λ _. CountsDown };

    ghost budget = { λ _. commits_left };

    ghost budget_falls = { λ _ opening words good. good.left };
}
