//! How an attempt becomes a commit: the request to stamp.
ghost use Rattle.std.specs.Prelude.{◌≡◌, ◌≢◌, ◌↔◌, ◌+◌, ◌*◌, ◌<◌, ◌≤◌, []};
ghost use Rattle.tx_model.specs.declared.pass.PassState.TheVariants as state;
ghost use Rattle.tx_model.specs.Attempt.{MayCommit};
ghost use Rattle.tx_model.specs.Pass.{IsWhole};
ghost use Rattle.ring_core.specs.declared.stage.Stage.TheVariants as stage;
ghost use Rattle.ring_core.specs.declared.stage.Purpose.TheVariants as purpose;
ghost use Rattle.ring_core.specs.declared.stage.CheckStage.TheVariants as check;
ghost use Rattle.ring_core.specs.Machine.{IsClosed, steps_of};
ghost use Rattle.ring_words.specs.Pass.{made_by, shape_by, process_now, view_of, attempt_now, steps_made, IsOf, IsSeated, Exchanged};
ghost use Rattle.ring_words.specs.Stamping.{IsAnswered, StampsOn, StampAnswer, MeetsNobody};

use crate::pass::RingPass;
use crate::ring::Ring;
use crate::table::{Moving, Swap};
use ring_core::laws::move_keeps;
use ring_core::{Action, CheckStage, Later, Progress, Purpose, Stage};
use ring_worlds::laws::{moves_keep, next_step, steps_keep};
use std::marker::Brand;
use tx_model::{Sense, Stop};

/// What a request to stamp answers.
#[derive(Clone, Copy)]
pub enum Stamp {
    /// The attempt is this commit of the history. It isn't complete yet.
    Stamped { stamp: u64 },
    /// The attempt goes on, and may be stamped again.
    Later { later: Later },
    /// The attempt had to stop, and is over.
    Stopped { stop: Stop },
    /// So many commits have happened, as many as there may be. The attempt is over.
    Worn { index: u64 },
}

impl<S: Sense> Ring<S> {
    /// Swaps the index that was checked for the next number. Where it is still there, the attempt is that commit.
    fn exchange<M: Moving>(&self, pass: &mut RingPass<S>, from: u64) -> Progress
        requires of { IsSeated S.good S.budget self.now.words.shared.key self.now.words.shared.table_id pass.old }
        requires moved { M.moved ≡ process_now pass.old }
        requires stage { pass.old.local.caller.stage ≡ stage.StampSwap from }
        requires active { pass.old.local.caller.state ≡ state.Active }
        requires may { MayCommit (S.good (made_by self.now).sense (made_by self.now).opening) (S.budget (made_by self.now).sense)
            (attempt_now pass.old) (view_of pass.old).owned }
        ensures of { IsSeated S.good S.budget self.now.words.shared.key self.now.words.shared.table_id pass.new }
        ensures swapped { Exchanged S.good S.budget pass.old pass.new result }
        ensures steps { steps_of pass.new.local < steps_of pass.old.local }
        ensures over { result ≢ Progress.Going }
        ensures closed { IsClosed pass.new.local }
    {
        steps_keep();
        next_step();
        let shared = &self.words.shared;
        let found = shared.compare_exchange::<Swap<S, M>>(&mut pass.seat, 0, from, from + 1);
        pass.local.take_at(Stage::StampSwap { top: from }, found)
    }

    /// Makes the steps of a request to stamp that was opened, as far as they are known: where no entry is newer than the start, the slot
    /// is looked at next, and where that is free, the index is swapped. Answers `Going` where the request goes on.
    fn stamp_straight(&self, pass: &mut RingPass<S>) -> Progress
        requires of { IsSeated S.good S.budget self.now.words.shared.key self.now.words.shared.table_id pass.old }
        requires stage { pass.old.local.caller.stage ≡ stage.Check purpose.Stamp check.Index }
        requires active { pass.old.local.caller.state ≡ state.Active }
        requires may { MayCommit (S.good (made_by self.now).sense (made_by self.now).opening) (S.budget (made_by self.now).sense)
            (attempt_now pass.old) (view_of pass.old).owned }
        ensures of { IsSeated S.good S.budget self.now.words.shared.key self.now.words.shared.table_id pass.new }
        ensures going { result ≡ Progress.Going → StampsOn pass.old pass.new }
        ensures answered { result ≢ Progress.Going → IsAnswered S.good S.budget self.now.words.shared.key self.now.words.shared.table_id pass.old
            pass.new result }
        ensures closed { result ≢ Progress.Going → IsClosed pass.new.local }
    {
        let check = Stage::Check {
            purpose: Purpose::Stamp,
            stage: CheckStage::Index,
        };
        let top = self.load_at::<Brand>(pass, check);
        if top != pass.local.start() {
            return pass.local.absorb_at(check, top);
        }
        if top == self.shape.life {
            return pass.local.absorb_at(check, top);
        }
        let slot = Stage::StampSlot { top };
        let tag = self.load_at::<Brand>(pass, slot);
        match pass.local.take_at(slot, tag) {
            Progress::Going => self.exchange::<Brand>(pass, top),
            progress => progress,
        }
    }

    /// Makes the steps of an open request to stamp, until it is answered.
    fn stamp(&self, pass: &mut RingPass<S>) -> Progress
        requires of { IsSeated S.good S.budget self.now.words.shared.key self.now.words.shared.table_id pass.old }
        requires stage { pass.old.local.caller.stage ≡ stage.Check purpose.Stamp check.Index }
        requires active { pass.old.local.caller.state ≡ state.Active }
        requires may { MayCommit (S.good (made_by self.now).sense (made_by self.now).opening) (S.budget (made_by self.now).sense)
            (attempt_now pass.old) (view_of pass.old).owned }
        ensures of { IsSeated S.good S.budget self.now.words.shared.key self.now.words.shared.table_id pass.new }
        ensures answered { IsAnswered S.good S.budget self.now.words.shared.key self.now.words.shared.table_id pass.old pass.new result }
        ensures closed { IsClosed pass.new.local }
    {
        match self.stamp_straight(pass) {
            Progress::Going => {}
            progress => return progress,
        }
        loop {
            if let Action::SwapIndex { from } = pass.local.next() {
                return self.exchange::<Brand>(pass, from);
            }
            match self.step::<Brand>(pass) {
                Progress::Going => {}
                progress => return progress,
            }
        }
    }

    /// Checks that the reads are of the newest state, and makes the attempt the commit after it. Where it answers
    /// `Later`, nothing but the start of the attempt has changed.
    pub fn try_stamp(&self, pass: &mut RingPass<S>) -> Stamp
        requires of { IsOf S.allows S.good S.budget self.now pass.old }
        requires active { (view_of pass.old).state ≡ state.Active }
        requires wrote { (attempt_now pass.old).writes ≢ [] }
        requires may { MayCommit (S.good (made_by self.now).sense (made_by self.now).opening) (S.budget (made_by self.now).sense)
            (attempt_now pass.old) (view_of pass.old).owned }
        ensures of { IsOf S.allows S.good S.budget self.now pass.new }
        ensures answer { StampAnswer self.now pass.old pass.new result }
        ensures alone { IsWhole (view_of pass.old) → MeetsNobody result }
        ensures few { steps_made pass.new ≤ steps_made pass.old + ((shape_by self.now).ring * ((shape_by self.now).sig_words + 2) + 3) }
    {
        move_keeps();
        moves_keep();
        pass.local.start_stamp();
        match self.stamp(pass) {
            Progress::Stamped { stamp } => Stamp::Stamped { stamp },
            Progress::Later { later } => Stamp::Later { later },
            Progress::Stopped { stop } => Stamp::Stopped { stop },
            Progress::Worn { index } => Stamp::Worn { index },
            _ => unreachable!(),
        }
    }
}
