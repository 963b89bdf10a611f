//! Commits: an attempt that wrote is stamped and written back, and one that wrote nothing ends at the state that it read
//! from.
ghost use Rattle.std.specs.Prelude.{◌≡◌, ◌≢◌, ℕ, [], IfOk, IfErr, OnOk};
ghost use Rattle.tx_model.specs.declared.pass.PassState.TheVariants as state;
ghost use Rattle.tx_model.specs.Attempt.{MayCommit};
ghost use Rattle.tx_model.specs.Calls.{Committed, Refused};
ghost use Rattle.ring_words.specs.Pass.{made_by, shows_by, view_of, attempt_now, IsOf};
ghost use Rattle.ring_words.specs.Stamping.{BecameCommit};
ghost use Rattle.ring_words.specs.Turns.{Finished};

use crate::pass::RingPass;
use crate::ring::Ring;
use crate::stamp::Stamp;
use crate::turns::Turn;
use std::sync::Wait;
use tx_model::{CommitError, Receipt, Sense, count_stop};

impl<S: Sense> Ring<S> {
    /// Makes the attempt a commit of the history, where it wrote, and ends it.
    pub fn commit<R: Wait>(&self, rt: &R, pass: &mut RingPass<S>) -> Result<Receipt, CommitError>
        requires of { IsOf S.allows S.good S.budget self.now pass.old }
        requires active { (view_of pass.old).state ≡ state.Active }
        requires may { (attempt_now pass.old).writes ≢ []
            → MayCommit (S.good (made_by self.now).sense (made_by self.now).opening) (S.budget (made_by self.now).sense) (attempt_now pass.old)
            (view_of pass.old).owned }
        ensures of { IsOf S.allows S.good S.budget self.now pass.new }
        ensures committed { IfOk result (λ receipt. Committed (made_by self.now).opening (view_of pass.old) (view_of pass.new) (attempt_now pass.old)
            receipt) }
        ensures refused { IfErr result (λ error. Refused (shows_by self.now) (made_by self.now).life (view_of pass.old) (view_of pass.new)
            (attempt_now pass.old) error) }
    {
        if pass.local.writes().len() == 0 {
            return Ok(self.commit_read_only(pass));
        }
        self.enter(rt, pass)?;
        Ok(self.finish(rt, pass))
    }

    /// Asks for a stamp until the attempt has one or is over. After a few refusals other threads get to run first.
    fn enter<R: Wait>(&self, rt: &R, pass: &mut RingPass<S>) -> Result<(), CommitError>
        requires of { IsOf S.allows S.good S.budget self.now pass.old }
        requires active { (view_of pass.old).state ≡ state.Active }
        requires wrote { (attempt_now pass.old).writes ≢ [] }
        requires may { MayCommit (S.good (made_by self.now).sense (made_by self.now).opening) (S.budget (made_by self.now).sense)
            (attempt_now pass.old) (view_of pass.old).owned }
        ensures of { IsOf S.allows S.good S.budget self.now pass.new }
        ensures became { OnOk result ((number : ℕ) × BecameCommit (made_by self.now).opening (view_of pass.old) (view_of pass.new) (attempt_now pass.old)
            (attempt_now pass.new) number) }
        ensures refused { IfErr result (λ error. Refused (shows_by self.now) (made_by self.now).life (view_of pass.old) (view_of pass.new)
            (attempt_now pass.old) error) }
    {
        let mut stops = 0;
        for _ in rt.forever() {
            match self.try_stamp(pass) {
                Stamp::Stamped { stamp: _ } => return Ok(()),
                Stamp::Stopped { stop } => return Err(CommitError::Stopped { stop }),
                Stamp::Worn { index } => return Err(CommitError::Worn { index }),
                Stamp::Later { later: _ } => stops = count_stop(stops),
            }
        }
        unreachable!()
    }

    /// Makes turns until the commit is complete. After a few that wait other threads get to run first.
    fn finish<R: Wait>(&self, rt: &R, pass: &mut RingPass<S>) -> Receipt
        requires of { IsOf S.allows S.good S.budget self.now pass.old }
        requires stamped { (view_of pass.old).state ≡ state.Stamped }
        ensures of { IsOf S.allows S.good S.budget self.now pass.new }
        ensures finished { Finished (made_by self.now).opening (view_of pass.old) (view_of pass.new) (attempt_now pass.old) result }
    {
        let mut stops = 0;
        for _ in rt.forever() {
            match self.turn(pass) {
                Turn::Completed { receipt } => return receipt,
                Turn::Later { later: _ } => stops = count_stop(stops),
            }
        }
        unreachable!()
    }
}
