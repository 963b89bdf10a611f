//! Facts about the definitions of `specs/`, each the contract of a function that does nothing.
ghost use Rattle.std.specs.Prelude.{ℕ, List};
ghost use Rattle.tx_model.specs.Laws.{AfterLength, StateLength, AfterWord, StateStays, StateAfter, BudgetBounds, MergedStamps, MergedMembers};

use crate::sense::Sense;

/// What writes leave of a memory.
pub fn memory_laws()
    ensures length { AfterLength }
    ensures words { AfterWord }
{}

/// The states of a history.
pub fn state_laws()
    ensures length { StateLength }
    ensures stays { StateStays }
    ensures after { StateAfter }
{}

/// How long a good history may be.
pub fn budget_bounds<S: Sense>(_sense: &S)
    ensures { (opening : List ℕ) → BudgetBounds (S.good _sense.now opening) (S.budget _sense.now) opening }
{}

/// The numbers of the commits of two passes, merged.
pub fn merged_stamps()
    ensures rise { MergedStamps }
    ensures members { MergedMembers }
{}
