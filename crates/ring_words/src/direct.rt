//! Beginnings and reads taken straight: the step that comes next is known, so the machine isn't asked for it, and where no entry
//! is newer than the start it takes in what was found at once. Else the request goes on step by step.
ghost use Rattle.std.specs.Prelude.{◌≡◌};
ghost use Rattle.tx_model.specs.declared.pass.PassState.TheVariants as state;
ghost use Rattle.ring_core.specs.declared.stage.Stage.TheVariants as stage;
ghost use Rattle.ring_core.specs.Machine.{IsClosed, at_stage};
ghost use Rattle.ring_core.specs.Request.{next_action};
ghost use Rattle.ring_core.specs.Words.{CanAbsorb};
ghost use Rattle.ring_words.specs.Layout.{IsLoad};
ghost use Rattle.ring_words.specs.Pass.{IsSeated, Found, process_now, staged};
ghost use Rattle.ring_words.specs.Requests.{Answered};

use crate::layout::index_of;
use crate::pass::RingPass;
use crate::ring::Ring;
use crate::table::{Load, Moving};
use ring_core::{CheckStage, Progress, Purpose, Stage};
use ring_worlds::laws::{next_step, steps_keep};
use std::marker::Brand;
use tx_model::Sense;

impl<S: Sense> Ring<S> {
    /// Makes the step of a request that is open at this stage, which loads a word. The machine has yet to take it in.
    #[inline(always)]
    pub(crate) fn load_at<M: Moving>(&self, pass: &mut RingPass<S>, stage: Stage) -> u64
        requires of { IsSeated S.good S.budget self.now.words.shared.key self.now.words.shared.table_id (staged pass.old stage) }
        requires moved { M.moved ≡ process_now (staged pass.old stage) }
        requires loads { IsLoad (next_action pass.old.local.shape (at_stage pass.old.local stage).caller) }
        ensures local { pass.new.local ≡ pass.old.local }
        ensures found { Found S.good S.budget (staged pass.old stage) pass.new result }
        ensures can { CanAbsorb pass.old.local.shape (at_stage pass.old.local stage).caller result }
    {
        steps_keep();
        next_step();
        let index = index_of(&self.shape, pass.local.next_at(stage));
        self.words.shared.load::<Load<S, M>>(&mut pass.seat, index)
    }

    /// Makes the steps of a beginning. Where the newest entry is complete, they are two.
    #[inline]
    pub(crate) fn begin_attempt(&self, pass: &mut RingPass<S>) -> Progress
        requires of { IsSeated S.good S.budget self.now.words.shared.key self.now.words.shared.table_id (staged pass.old stage.BeginIndex) }
        ensures of { IsSeated S.good S.budget self.now.words.shared.key self.now.words.shared.table_id pass.new }
        ensures answered { Answered S.good S.budget self.now.words.shared.key self.now.words.shared.table_id (staged pass.old stage.BeginIndex)
            pass.new result }
        ensures closed { IsClosed pass.new.local }
    {
        let top = self.load_at::<Brand>(pass, Stage::BeginIndex);
        if top == 0 {
            return pass.local.absorb_at(Stage::BeginIndex, top);
        }
        let newest = Stage::BeginTag { top, at: top };
        let tag = self.load_at::<Brand>(pass, newest);
        match pass.local.take_at(newest, tag) {
            Progress::Going => self.answer(pass),
            progress => progress,
        }
    }

    /// Makes the steps of a read of a word that the attempt has not written. Where no entry is newer than the start, they are two.
    #[inline]
    pub(crate) fn read_word(&self, pass: &mut RingPass<S>, addr: u64) -> Progress
        requires of { IsSeated S.good S.budget self.now.words.shared.key self.now.words.shared.table_id (staged pass.old (stage.ReadHeap addr)) }
        requires active { pass.old.local.caller.state ≡ state.Active }
        requires closed { pass.old.local.caller.stage ≡ stage.Closed }
        ensures of { IsSeated S.good S.budget self.now.words.shared.key self.now.words.shared.table_id pass.new }
        ensures answered { Answered S.good S.budget self.now.words.shared.key self.now.words.shared.table_id (staged pass.old (stage.ReadHeap addr))
            pass.new result }
        ensures closed { IsClosed pass.new.local }
    {
        let value = self.load_at::<Brand>(pass, Stage::ReadHeap { addr });
        pass.local.absorb_read(addr);
        let check = Stage::Check {
            purpose: Purpose::Read { addr, value },
            stage: CheckStage::Index,
        };
        let index = self.load_at::<Brand>(pass, check);
        if index == pass.local.start() {
            return Progress::Value { value };
        }
        match pass.local.absorb_at(check, index) {
            Progress::Going => self.answer(pass),
            progress => progress,
        }
    }
}
