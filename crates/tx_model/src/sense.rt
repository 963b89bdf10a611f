//! What the words of a memory mean.
ghost use Rattle.std.specs.Prelude.{ℕ, ◌≤◌, List};
ghost use Rattle.tx_model.specs.declared.gate.Region.{Region};

/// What the words of a memory mean to its callers.
pub trait Sense {
    /// The lists of regions that a memory may be made with.
    ghost allows: { Self → List Region → Type 0 };

    /// Which memories are good, where the first one opened it.
    ghost good: { Self → List ℕ → List ℕ → Type 0 };

    /// How many commits a memory leaves room for.
    ghost budget: { Self → List ℕ → ℕ };

    /// A good memory has no greater budget than the opening.
    ghost budget_falls: { (sense : Self) (opening words : List ℕ) → good sense opening words → budget sense words ≤ budget sense opening };
}
