//! A transaction memory.
ghost use Rattle.std.specs.Prelude.{◌≡◌, ◌≢◌, ◌<◌, ◌∷◌, ◌-◌, ℕ, [], List, Some, None, IfOk, IfErr, OnOk, OnErr, IsErr, ◌↔◌, length};
ghost use Rattle.tx_model.specs.declared.pass.PassState.TheVariants.{Idle, Active};
ghost use Rattle.tx_model.specs.declared.pass.Stop.{Stop};
ghost use Rattle.tx_model.specs.declared.pass.TheConstants.{MAX_WRITES};
ghost use Rattle.tx_model.specs.declared.history.Commit.{Commit};
ghost use Rattle.tx_model.specs.declared.view.PassView.{PassView};
ghost use Rattle.tx_model.specs.declared.view.Attempt.{Attempt};
ghost use Rattle.tx_model.specs.Words.{value_of, addresses};
ghost use Rattle.tx_model.specs.Made.{Made, IsMade};
ghost use Rattle.tx_model.specs.Opacity.{StaysShown, HasLaterCommit};
ghost use Rattle.tx_model.specs.Pass.{IsPass};
ghost use Rattle.tx_model.specs.Attempt.{MayRead, MayWrite, MayCommit};
ghost use Rattle.tx_model.specs.Calls.{Began, Read, Ended, Committed, WornOut, Joined, Refused, IsFull, with_write, left_of, right_of};

use crate::pass::{CommitError, Memory, PassState, Receipt, Stop, WriteFull};
use crate::sense::Sense;
use std::sync::Wait;

/// A memory of words that several callers change by transactions. A caller acts through a pass.
pub trait TxMemory<S: Sense> {
    /// What a caller acts through. It has to be spent by `join` or by the memory's `close`.
    type Pass;

    /// What the memory was made with.
    ghost made: { Self → Made S };

    /// The pass came from this memory.
    ghost of: { Self → Self.Pass → Type 0 };

    /// What a pass stands for.
    ghost view: { Self.Pass → PassView };

    /// What a pass did since it began.
    ghost attempt: { Self.Pass → Attempt };

    /// What shows that an attempt had to stop: of the history, the start and the addresses read.
    ghost shows: { Self → List Commit → ℕ → List ℕ → Stop → Type 0 };

    fn sense(&self) -> &S
        ensures { result.now ≡ (made self.now).sense };

    /// The number of words.
    fn len(&self) -> u64
        ensures { result ≡ length (made self.now).opening };

    /// How many commits the memory has at most.
    fn life(&self) -> u64
        ensures { result ≡ (made self.now).life };

    fn state(&self, pass: &Self::Pass) -> PassState
        requires of { of self.now pass.now }
        ensures { result ≡ (view pass.now).state };

    /// How many more addresses the attempt may write.
    fn room(&self, pass: &Self::Pass) -> u64
        requires of { of self.now pass.now }
        ensures { result ≡ MAX_WRITES - length (attempt pass.now).writes };

    /// Begins an attempt, which reads from a state that is no older than what the pass knows to be complete.
    fn begin<R: Wait + Sync>(&self, rt: &R, pass: &mut Self::Pass)
        requires of { of self.now pass.old }
        requires idle { (view pass.old).state ≡ Idle }
        ensures of { of self.now pass.new }
        ensures began { Began (view pass.old) (view pass.new) (attempt pass.new) };

    /// The value that the attempt wrote there, else the value in the one state that all its reads come from.
    /// After a stop the attempt is over.
    fn read(&self, pass: &mut Self::Pass, addr: u64) -> Result<u64, Stop>
        requires of { of self.now pass.old }
        requires active { (view pass.old).state ≡ Active }
        requires within { addr < length (made self.now).opening }
        requires rule { MayRead (made self.now).regions (attempt pass.old) addr }
        ensures of { of self.now pass.new }
        ensures read { IfOk result (λ value. Read (made self.now).opening (view pass.old) (view pass.new) (attempt pass.old) (attempt pass.new) addr value) }
        ensures ended { OnErr result (Ended (view pass.old) (view pass.new) (attempt pass.old)) }
        ensures cause_stop { IfErr result
            (λ stop. shows self.now (view pass.new).history (attempt pass.old).start (addr ∷ addresses (attempt pass.old).reads) stop) };

    /// Refuses exactly where the address isn't written yet and there is no room, and changes nothing then.
    fn write(&self, pass: &mut Self::Pass, addr: u64, value: u64) -> Result<(), WriteFull>
        requires of { of self.now pass.old }
        requires active { (view pass.old).state ≡ Active }
        requires within { addr < length (made self.now).opening }
        requires rule { MayWrite (made self.now).regions (attempt pass.old) addr value }
        ensures of { of self.now pass.new }
        ensures same { view pass.new ≡ view pass.old }
        ensures written { OnOk result (attempt pass.new ≡ with_write (attempt pass.old) addr value) }
        ensures unchanged { OnErr result (attempt pass.new ≡ attempt pass.old) }
        ensures exactly_full { IsErr result ↔ IsFull (attempt pass.old) addr };

    /// Ends the attempt. The pass has no further commit.
    fn give_up(&self, pass: &mut Self::Pass)
        requires of { of self.now pass.old }
        requires active { (view pass.old).state ≡ Active }
        ensures of { of self.now pass.new }
        ensures ended { Ended (view pass.old) (view pass.new) (attempt pass.old) };

    /// Makes the attempt a commit of the history, where it wrote, and ends it.
    fn commit<R: Wait + Sync>(&self, rt: &R, pass: &mut Self::Pass) -> Result<Receipt, CommitError>
        requires of { of self.now pass.old }
        requires active { (view pass.old).state ≡ Active }
        requires may { (attempt pass.old).writes ≢ []
            → MayCommit (S.good (made self.now).sense (made self.now).opening) (S.budget (made self.now).sense) (attempt pass.old) (view pass.old).owned }
        ensures of { of self.now pass.new }
        ensures committed { IfOk result (λ receipt. Committed (made self.now).opening (view pass.old) (view pass.new) (attempt pass.old) receipt) }
        ensures refused { IfErr result (λ error. Refused (shows self.now) (made self.now).life (view pass.old) (view pass.new) (attempt pass.old) error) };

    /// A further pass, which knows as much and has nothing. A refusal changes nothing.
    fn split(&self, pass: &mut Self::Pass) -> Result<Self::Pass, Memory>
        requires of { of self.now pass.old }
        requires idle { (view pass.old).state ≡ Idle }
        ensures of { of self.now pass.new }
        ensures given { IfOk result (λ other. of self.now other × (view other ≡ right_of (view pass.old))) }
        ensures kept { OnOk result (view pass.new ≡ left_of (view pass.old)) }
        ensures unchanged { OnErr result (view pass.new ≡ view pass.old) };

    /// One pass of two. It knows what either knew, and has what both had.
    fn join(&self, pass: &mut Self::Pass, other: Self::Pass)
        requires of { of self.now pass.old × of self.now other }
        requires idle { ((view pass.old).state ≡ Idle) × ((view other).state ≡ Idle) }
        ensures of { of self.now pass.new }
        ensures joined { Joined (view pass.old) (view other) (view pass.new) };

    /// What a memory is made with is in order.
    ghost made_well: { (mem : Self) (pass : Self.Pass) → of mem pass → IsMade S.allows S.good (made mem) };

    /// What is shown stays shown.
    ghost stays_shown: { (mem : Self) → StaysShown (shows mem) };

    /// What is shown has a commit after the start.
    ghost has_later: { (mem : Self) → HasLaterCommit (shows mem) };

    /// What every pass knows.
    ghost knows: { (mem : Self) (pass : Self.Pass) → of mem pass → IsPass S.good S.budget (made mem) (view pass) (attempt pass) };
}
