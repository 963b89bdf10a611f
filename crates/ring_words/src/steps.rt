//! The steps of a request: each is the one that the machine names, and the machine takes in the word that it found.
ghost use Rattle.std.specs.Prelude.{◌≡◌, ◌≢◌, ◌↔◌, ◌<◌};
ghost use Rattle.ring_core.specs.Machine.{IsClosed, steps_of};
ghost use Rattle.ring_core.specs.Request.{next_action};
ghost use Rattle.ring_words.specs.Layout.{IsLoad};
ghost use Rattle.ring_words.specs.Pass.{IsSeated, Stepped, process_now};
ghost use Rattle.ring_words.specs.Requests.{Answered, IsShort, asked_at};

use crate::layout::index_of;
use crate::pass::RingPass;
use crate::ring::Ring;
use crate::table::{Load, Moving};
use ring_core::Progress;
use ring_worlds::laws::{next_step, steps_keep};
use std::marker::Brand;
use tx_model::Sense;

impl<S: Sense> Ring<S> {
    /// Makes the next step of the open request, which loads a word.
    pub(crate) fn step<M: Moving>(&self, pass: &mut RingPass<S>) -> Progress
        requires of { IsSeated S.good S.budget self.now.words.shared.key self.now.words.shared.table_id pass.old }
        requires moved { M.moved ≡ process_now pass.old }
        requires loads { IsLoad (next_action pass.old.local.shape pass.old.local.caller) }
        ensures of { IsSeated S.good S.budget self.now.words.shared.key self.now.words.shared.table_id pass.new }
        ensures step { Stepped S.good S.budget pass.old pass.new result }
        ensures steps { steps_of pass.new.local < steps_of pass.old.local }
        ensures ends { (result ≢ Progress.Going) ↔ IsClosed pass.new.local }
    {
        steps_keep();
        next_step();
        let index = index_of(&self.shape, pass.local.next());
        let word = self.words.shared.load::<Load<S, M>>(&mut pass.seat, index);
        pass.local.absorb(word)
    }

    /// Makes the steps of a beginning or of a read, until it is answered.
    pub(crate) fn answer(&self, pass: &mut RingPass<S>) -> Progress
        requires of { IsSeated S.good S.budget self.now.words.shared.key self.now.words.shared.table_id pass.old }
        requires short { IsShort (asked_at pass.old.local.caller.stage) }
        ensures of { IsSeated S.good S.budget self.now.words.shared.key self.now.words.shared.table_id pass.new }
        ensures answered { Answered S.good S.budget self.now.words.shared.key self.now.words.shared.table_id pass.old pass.new result }
        ensures closed { IsClosed pass.new.local }
    {
        loop {
            match self.step::<Brand>(pass) {
                Progress::Going => {}
                progress => return progress,
            }
        }
    }
}
