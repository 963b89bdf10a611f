//! A turn taken straight: one that begins knows its steps as long as no earlier entry is to be waited for, so the machine isn't asked
//! for them. It takes in the last one, and where the turn has to wait it goes on from there step by step.
ghost use Rattle.std.specs.Prelude.{◌≡◌, ◌≢◌};
ghost use Rattle.tx_model.specs.declared.pass.PassState.TheVariants as state;
ghost use Rattle.ring_core.specs.declared.stage.Stage.TheVariants as stage;
ghost use Rattle.ring_core.specs.declared.stage.TurnStage.TheVariants as turn;
ghost use Rattle.ring_core.specs.Machine.{IsClosed, at_stage};
ghost use Rattle.ring_core.specs.Request.{next_action, slot_of};
ghost use Rattle.ring_words.specs.Layout.{index_at, tag_index};
ghost use Rattle.ring_words.specs.Stores.{IsStore, word_stored};
ghost use Rattle.ring_words.specs.Pass.{IsSeated, Found, process_now, staged};
ghost use Rattle.ring_words.specs.Turns.{IsTurn, IsTurning, TurnAnswered, after_words};

use crate::layout::index_of;
use crate::pass::RingPass;
use crate::ring::Ring;
use crate::table::{Moving, Store};
use ring_core::{Action, Kind, Progress, Stage, TurnStage, complete};
use ring_worlds::laws::{next_step, steps_keep};
use std::marker::Brand;
use tx_model::Sense;

/// The word that a step stores, or 0.
#[inline(always)]
fn word_of(action: Action) -> u64
    ensures { result ≡ word_stored action }
{
    match action {
        Action::StoreTag { tag, .. } => tag,
        Action::StoreSig { value, .. } | Action::StoreHeap { value, .. } => value,
        _ => 0,
    }
}

impl<S: Sense> Ring<S> {
    /// Makes the step of a turn that is at this stage, which stores a word at this index of the table. The machine has yet to take it in.
    #[inline(always)]
    fn store_to<M: Moving>(&self, pass: &mut RingPass<S>, stage: Stage, to: usize)
        requires of { IsSeated S.good S.budget self.now.words.shared.key self.now.words.shared.table_id (staged pass.old stage) }
        requires moved { M.moved ≡ process_now (staged pass.old stage) }
        requires stores { IsStore (next_action pass.old.local.shape (at_stage pass.old.local stage).caller) }
        requires to { to ≡ index_at pass.old.local.shape (next_action pass.old.local.shape (at_stage pass.old.local stage).caller) }
        ensures local { pass.new.local ≡ pass.old.local }
        ensures found { Found S.good S.budget (staged pass.old stage) pass.new 0 }
    {
        steps_keep();
        next_step();
        let word = word_of(pass.local.next_at(stage));
        self.words
            .shared
            .store::<Store<S, M>>(&mut pass.seat, to, word);
    }

    /// Makes the step of a turn that is at this stage, which stores a word. The machine has yet to take it in.
    #[inline(always)]
    fn store_at<M: Moving>(&self, pass: &mut RingPass<S>, stage: Stage)
        requires of { IsSeated S.good S.budget self.now.words.shared.key self.now.words.shared.table_id (staged pass.old stage) }
        requires moved { M.moved ≡ process_now (staged pass.old stage) }
        requires stores { IsStore (next_action pass.old.local.shape (at_stage pass.old.local stage).caller) }
        ensures local { pass.new.local ≡ pass.old.local }
        ensures found { Found S.good S.budget (staged pass.old stage) pass.new 0 }
    {
        let to = index_of(&self.shape, pass.local.next_at(stage));
        self.store_to::<M>(pass, stage, to);
    }

    /// Stores the tag `filling` and the signature of the entry of a turn that begins. Answers the index of its tag in the table,
    /// which is looked up once.
    #[inline(always)]
    fn publish(&self, pass: &mut RingPass<S>) -> usize
        requires of { IsSeated S.good S.budget self.now.words.shared.key self.now.words.shared.table_id pass.old }
        requires stamped { pass.old.local.caller.state ≡ state.Stamped }
        requires begins { pass.old.local.caller.stage ≡ stage.Turn turn.Filling }
        ensures of { IsSeated S.good S.budget self.now.words.shared.key self.now.words.shared.table_id (staged pass.new (stage.Turn turn.Writing)) }
        ensures turning { IsTurning pass.old (staged pass.new (stage.Turn turn.Writing)) }
        ensures local { pass.new.local ≡ pass.old.local }
        ensures tag { result ≡ tag_index pass.old.local.shape (slot_of pass.old.local.shape pass.old.local.caller.stamp) }
    {
        let own = index_of(
            &self.shape,
            pass.local.next_at(Stage::Turn {
                stage: TurnStage::Filling,
            }),
        );
        let first = index_of(
            &self.shape,
            pass.local.next_at(Stage::Turn {
                stage: TurnStage::Signature { word: 0 },
            }),
        );
        self.store_to::<Brand>(
            pass,
            Stage::Turn {
                stage: TurnStage::Filling,
            },
            own,
        );
        let last = self.shape.sig_words - 1;
        for word in 0..last {
            self.store_to::<Brand>(
                pass,
                Stage::Turn {
                    stage: TurnStage::Signature { word },
                },
                first + word as usize,
            );
        }
        self.store_to::<Brand>(
            pass,
            Stage::Turn {
                stage: TurnStage::Signature { word: last },
            },
            first + last as usize,
        );
        own
    }

    /// Stores the words of the attempt.
    #[inline(always)]
    fn store_words(&self, pass: &mut RingPass<S>)
        requires of { IsSeated S.good S.budget self.now.words.shared.key self.now.words.shared.table_id (staged pass.old (stage.Turn (turn.Heap 0))) }
        requires stamped { pass.old.local.caller.state ≡ state.Stamped }
        ensures of { IsSeated S.good S.budget self.now.words.shared.key self.now.words.shared.table_id
            (staged pass.new (stage.Turn (after_words pass.old.local.caller.stamp))) }
        ensures turning { IsTurning (staged pass.old (stage.Turn (turn.Heap 0)))
            (staged pass.new (stage.Turn (after_words pass.old.local.caller.stamp))) }
        ensures local { pass.new.local ≡ pass.old.local }
    {
        let last = pass.local.writes().len() - 1;
        for index in 0..last {
            self.store_at::<Brand>(
                pass,
                Stage::Turn {
                    stage: TurnStage::Heap { index },
                },
            );
        }
        self.store_at::<Brand>(
            pass,
            Stage::Turn {
                stage: TurnStage::Heap { index: last },
            },
        );
    }

    /// Stores the tag `complete` at its index, which ends the turn.
    #[inline(always)]
    fn store_complete(&self, pass: &mut RingPass<S>, own: usize) -> Progress
        requires of { IsSeated S.good S.budget self.now.words.shared.key self.now.words.shared.table_id (staged pass.old (stage.Turn turn.Complete)) }
        requires stamped { pass.old.local.caller.state ≡ state.Stamped }
        requires own { own ≡ tag_index pass.old.local.shape (slot_of pass.old.local.shape pass.old.local.caller.stamp) }
        ensures of { IsSeated S.good S.budget self.now.words.shared.key self.now.words.shared.table_id pass.new }
        ensures answered { TurnAnswered S.good S.budget self.now.words.shared.key self.now.words.shared.table_id
            (staged pass.old (stage.Turn turn.Complete)) pass.new result }
        ensures over { result ≢ Progress.Going }
        ensures closed { IsClosed pass.new.local }
    {
        self.store_to::<Brand>(
            pass,
            Stage::Turn {
                stage: TurnStage::Complete,
            },
            own,
        );
        pass.local.take_at(
            Stage::Turn {
                stage: TurnStage::Complete,
            },
            0,
        )
    }

    /// Ends a turn whose words are stored: where the entry before is complete, the tag `complete` is stored at its index.
    #[inline(always)]
    fn end_turn(&self, pass: &mut RingPass<S>, own: usize) -> Progress
        requires of { IsSeated S.good S.budget self.now.words.shared.key self.now.words.shared.table_id
            (staged pass.old (stage.Turn (after_words pass.old.local.caller.stamp))) }
        requires stamped { pass.old.local.caller.state ≡ state.Stamped }
        requires own { own ≡ tag_index pass.old.local.shape (slot_of pass.old.local.shape pass.old.local.caller.stamp) }
        ensures of { IsSeated S.good S.budget self.now.words.shared.key self.now.words.shared.table_id pass.new }
        ensures going { result ≡ Progress.Going → IsTurning (staged pass.old (stage.Turn (after_words pass.old.local.caller.stamp))) pass.new }
        ensures answered { result ≢ Progress.Going → TurnAnswered S.good S.budget self.now.words.shared.key self.now.words.shared.table_id
            (staged pass.old (stage.Turn (after_words pass.old.local.caller.stamp))) pass.new result }
        ensures closed { result ≢ Progress.Going → IsClosed pass.new.local }
    {
        let stamp = pass.local.stamp();
        if stamp == 1 {
            return self.store_complete(pass, own);
        }
        let tag = self.load_at::<Brand>(
            pass,
            Stage::Turn {
                stage: TurnStage::Before,
            },
        );
        if tag < complete(stamp - 1) {
            return pass.local.absorb_at(
                Stage::Turn {
                    stage: TurnStage::Before,
                },
                tag,
            );
        }
        self.store_complete(pass, own)
    }

    /// Makes the steps of a turn that begins, as long as it needn't wait for an earlier entry. Answers `Going` where it goes on.
    fn write_straight(&self, pass: &mut RingPass<S>) -> Progress
        requires of { IsSeated S.good S.budget self.now.words.shared.key self.now.words.shared.table_id pass.old }
        requires stamped { pass.old.local.caller.state ≡ state.Stamped }
        requires begins { pass.old.local.caller.stage ≡ stage.Turn turn.Filling }
        ensures of { IsSeated S.good S.budget self.now.words.shared.key self.now.words.shared.table_id pass.new }
        ensures going { result ≡ Progress.Going → IsTurning pass.old pass.new }
        ensures answered { result ≢ Progress.Going → TurnAnswered S.good S.budget self.now.words.shared.key self.now.words.shared.table_id pass.old
            pass.new result }
        ensures closed { result ≢ Progress.Going → IsClosed pass.new.local }
    {
        let own = self.publish(pass);
        self.store_to::<Brand>(
            pass,
            Stage::Turn {
                stage: TurnStage::Writing,
            },
            own,
        );
        if pass.local.stamp() != pass.local.start() + 1 {
            return pass.local.absorb_at(
                Stage::Turn {
                    stage: TurnStage::Writing,
                },
                0,
            );
        }
        self.store_words(pass);
        self.end_turn(pass, own)
    }

    /// Makes the first steps of a turn, where it is at its beginning. Answers `Going` where it goes on.
    pub(crate) fn open_turn(&self, pass: &mut RingPass<S>) -> Progress
        requires of { IsSeated S.good S.budget self.now.words.shared.key self.now.words.shared.table_id pass.old }
        requires stamped { pass.old.local.caller.state ≡ state.Stamped }
        requires turn { IsTurn pass.old.local.caller.stage }
        ensures of { IsSeated S.good S.budget self.now.words.shared.key self.now.words.shared.table_id pass.new }
        ensures going { result ≡ Progress.Going → IsTurning pass.old pass.new }
        ensures answered { result ≢ Progress.Going → TurnAnswered S.good S.budget self.now.words.shared.key self.now.words.shared.table_id pass.old
            pass.new result }
        ensures closed { result ≢ Progress.Going → IsClosed pass.new.local }
    {
        match pass.local.kind() {
            Some(Kind::StoreTagFilling) => self.write_straight(pass),
            _ => Progress::Going,
        }
    }
}
