//! Turns: a stamped pass publishes its entry, waits for earlier entries that meet it, stores its words, and completes its
//! commit in the order of the ring.
ghost use Rattle.std.specs.Prelude.{◌≡◌, ◌≢◌, ◌↔◌, ◌+◌, ◌*◌, ◌<◌, ◌≤◌, length, IfSome, IfNone};
ghost use Rattle.tx_model.specs.declared.pass.PassState.TheVariants as state;
ghost use Rattle.tx_model.specs.Pass.{IsWhole};
ghost use Rattle.ring_core.specs.Machine.{IsClosed, steps_of};
ghost use Rattle.ring_core.specs.Request.{next_action};
ghost use Rattle.ring_words.specs.Stores.{IsStore, word_stored};
ghost use Rattle.ring_words.specs.Pass.{IsOf, IsSeated, Stepped, process_now, made_by, shape_by, view_of, attempt_now, steps_made};
ghost use Rattle.ring_words.specs.Turns.{Finished, StillStamped, IsOrder, IfCompleted, IfWaiting, IsTurn, TurnAnswered};

use crate::layout::index_of;
use crate::pass::RingPass;
use crate::ring::Ring;
use crate::table::{Moving, Store};
use ring_core::laws::move_keeps;
use ring_core::{Action, Later, Progress};
use ring_worlds::laws::{moves_keep, next_step, steps_keep};
use std::marker::Brand;
use tx_model::{Receipt, Sense};

/// What a turn answers.
#[derive(Clone, Copy)]
pub enum Turn {
    /// The commit is complete.
    Completed { receipt: Receipt },
    /// It waits for an earlier entry, and the next turn goes on there.
    Later { later: Later },
}

/// The word that a step stores, where it stores one.
fn stored_by(action: Action) -> Option<u64>
    ensures stores { IfSome result (λ word. IsStore action × (word ≡ word_stored action)) }
    ensures none { IfNone result (IsStore action → ⊥) }
{
    match action {
        Action::StoreTag { tag, .. } => Some(tag),
        Action::StoreSig { value, .. } | Action::StoreHeap { value, .. } => Some(value),
        _ => None,
    }
}

impl<S: Sense> Ring<S> {
    /// Makes the next step of the open turn, which stores this word.
    fn store<M: Moving>(&self, pass: &mut RingPass<S>, word: u64) -> Progress
        requires of { IsSeated S.good S.budget self.now.words.shared.key self.now.words.shared.table_id pass.old }
        requires moved { M.moved ≡ process_now pass.old }
        requires stores { IsStore (next_action pass.old.local.shape pass.old.local.caller) }
        requires word { word ≡ word_stored (next_action pass.old.local.shape pass.old.local.caller) }
        ensures of { IsSeated S.good S.budget self.now.words.shared.key self.now.words.shared.table_id pass.new }
        ensures step { Stepped S.good S.budget pass.old pass.new result }
        ensures steps { steps_of pass.new.local < steps_of pass.old.local }
        ensures ends { (result ≢ Progress.Going) ↔ IsClosed pass.new.local }
    {
        steps_keep();
        next_step();
        let index = index_of(&self.shape, pass.local.next());
        self.words
            .shared
            .store::<Store<S, M>>(&mut pass.seat, index, word);
        pass.local.absorb(0)
    }

    /// Makes the next step of the open turn.
    fn turn_step<M: Moving>(&self, pass: &mut RingPass<S>) -> Progress
        requires of { IsSeated S.good S.budget self.now.words.shared.key self.now.words.shared.table_id pass.old }
        requires moved { M.moved ≡ process_now pass.old }
        requires turn { IsTurn pass.old.local.caller.stage }
        ensures of { IsSeated S.good S.budget self.now.words.shared.key self.now.words.shared.table_id pass.new }
        ensures step { Stepped S.good S.budget pass.old pass.new result }
        ensures steps { steps_of pass.new.local < steps_of pass.old.local }
        ensures ends { (result ≢ Progress.Going) ↔ IsClosed pass.new.local }
    {
        match stored_by(pass.local.next()) {
            Some(word) => self.store::<M>(pass, word),
            None => self.step::<M>(pass),
        }
    }

    /// Makes the steps of a turn, until it is answered.
    fn write_back(&self, pass: &mut RingPass<S>) -> Progress
        requires of { IsSeated S.good S.budget self.now.words.shared.key self.now.words.shared.table_id pass.old }
        requires stamped { pass.old.local.caller.state ≡ state.Stamped }
        requires turn { IsTurn pass.old.local.caller.stage }
        ensures of { IsSeated S.good S.budget self.now.words.shared.key self.now.words.shared.table_id pass.new }
        ensures answered { TurnAnswered S.good S.budget self.now.words.shared.key self.now.words.shared.table_id pass.old pass.new result }
        ensures closed { IsClosed pass.new.local }
    {
        match self.open_turn(pass) {
            Progress::Going => {}
            progress => return progress,
        }
        loop {
            match self.turn_step::<Brand>(pass) {
                Progress::Going => {}
                progress => return progress,
            }
        }
    }

    /// Writes the attempt's words back as far as it can at once. Where it waits for an earlier entry the next turn goes on
    /// there.
    pub fn turn(&self, pass: &mut RingPass<S>) -> Turn
        requires of { IsOf S.allows S.good S.budget self.now pass.old }
        requires stamped { (view_of pass.old).state ≡ state.Stamped }
        ensures of { IsOf S.allows S.good S.budget self.now pass.new }
        ensures completed { IfCompleted result (λ receipt. Finished (made_by self.now).opening (view_of pass.old) (view_of pass.new) (attempt_now pass.old)
            receipt) }
        ensures still { IfWaiting result (λ later. StillStamped (view_of pass.old) (view_of pass.new) (attempt_now pass.old) (attempt_now pass.new)) }
        ensures order { IfWaiting result (λ later. IsOrder pass.new later) }
        ensures alone { IsWhole (view_of pass.old) → IfWaiting result (λ later. ⊥) }
        ensures rose { steps_made pass.old < steps_made pass.new }
        ensures few { steps_made pass.new ≤ steps_made pass.old
            + ((shape_by self.now).ring * ((shape_by self.now).sig_words + 2) + (shape_by self.now).sig_words + length (attempt_now pass.old).writes + 4) }
    {
        move_keeps();
        moves_keep();
        pass.local.start_turn();
        match self.write_back(pass) {
            Progress::Completed { stamp } => Turn::Completed {
                receipt: Receipt { stamp, wrote: true },
            },
            Progress::Later { later } => Turn::Later { later },
            _ => unreachable!(),
        }
    }
}
