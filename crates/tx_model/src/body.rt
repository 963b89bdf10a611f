//! What is done in an attempt.
ghost use Rattle.std.specs.Prelude.{◌≡◌, ◌≢◌, ℕ, List, Option, Some, None, IfErr, OnOk};
ghost use Rattle.tx_model.specs.declared.gate.Region.{Region};
ghost use Rattle.tx_model.specs.declared.pass.PassState.TheVariants.{Active};
ghost use Rattle.tx_model.specs.declared.view.Owned.{Owned};
ghost use Rattle.tx_model.specs.declared.view.Attempt.{Attempt};
ghost use Rattle.tx_model.specs.Attempt.{starting_at};
ghost use Rattle.tx_model.specs.Calls.{IsLater};
ghost use Rattle.tx_model.specs.Tries.{ReadyToCommit, StepStopped};

use crate::memory::TxMemory;
use crate::pass::Stop;
use crate::sense::Sense;
use std::fmt::Display;
use thiserror::Error;

/// Why a body didn't get to the end of an attempt.
#[derive(Clone, Copy, Debug, PartialEq, Eq, Error)]
#[error_bound(T: Display)]
pub enum BodyStep<T> {
    /// The memory stopped the attempt. It is over.
    #[error("{stop}")]
    Stopped { stop: Stop },
    /// The body refuses to go on. The attempt is still open.
    #[error("{refusal}")]
    Refused { refusal: T },
}

/// A body hands a stop on by `?`.
impl<T> From<Stop> for BodyStep<T> {
    ghost use Rattle.tx_model.specs.declared.body.BodyStep.TheVariants.{Stopped};

    ghost from_gives = { λ stop step. step ≡ Stopped stop };

    fn from(stop: Stop) -> Self {
        BodyStep::Stopped { stop }
    }
}

/// What is done in an attempt, each time that it is tried.
pub trait Body<S: Sense, M: TxMemory<S>> {
    /// Why a body may refuse.
    type Refusal;

    /// What it is to do, which no attempt changes.
    ghost task: { Self → List ℕ };

    /// What has to hold of the sense, the opening, the task and the regions that the pass owns.
    ghost needs: { S → List ℕ → List ℕ → List Owned → Type 0 };

    /// What an attempt did, by the sense, the opening, the body after it, the refusal if it refused, and the attempt.
    ghost did: { S → List ℕ → Self → Option Self.Refusal → Attempt → Type 0 };

    fn attempt(&mut self, mem: &M, pass: &mut M::Pass) -> Result<(), BodyStep<Self::Refusal>>
        requires of { M.of mem.now pass.old }
        requires active { (M.view pass.old).state ≡ Active }
        requires fresh { M.attempt pass.old ≡ starting_at (M.attempt pass.old).start }
        requires needs { needs (M.made mem.now).sense (M.made mem.now).opening (task self.old) (M.view pass.old).owned }
        ensures of { M.of mem.now pass.new }
        ensures task { task self.new ≡ task self.old }
        ensures later { IsLater (M.view pass.old) (M.view pass.new) }
        ensures ready { OnOk result (ReadyToCommit S.good S.budget (M.made mem.now) (M.view pass.old) (M.view pass.new) (M.attempt pass.old)
            (M.attempt pass.new)) }
        ensures did { OnOk result (did (M.made mem.now).sense (M.made mem.now).opening self.new None (M.attempt pass.new)) }
        ensures cause { IfErr result (λ step. StepStopped (M.shows mem.now) (did (M.made mem.now).sense (M.made mem.now).opening self.new)
            (M.made mem.now).opening (M.view pass.old) (M.view pass.new) (M.attempt pass.old) (M.attempt pass.new) step) };
}
