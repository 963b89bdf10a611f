//! Passes that are split and joined, and notes of what a pass knows.
ghost use Rattle.std.specs.Prelude.{◌≡◌, IfOk, OnOk, OnErr};
ghost use Rattle.tx_model.specs.declared.pass.PassState.TheVariants.{Idle};
ghost use Rattle.tx_model.specs.Calls.{Joined, left_of, right_of};
ghost use Rattle.ring_words.specs.Sealings.{seals_of};
ghost use Rattle.ring_words.specs.Pass.{IsOf, IsNoteOf, IsSeatOf, IsResting, view_of, note_view, seat_view};

use crate::pass::{Note, RingPass};
use crate::ring::Ring;
use crate::table::{Halves, Look, RingSeat};
use ring_core::Local;
use ring_core::laws::opening_is_sound;
use ring_worlds::laws::callers_change;
use tx_model::laws::{joined_shares, merged_stamps, split_shares};
use tx_model::{Memory, Sense};

impl<S: Sense> Ring<S> {
    /// A further pass, which knows as much and has nothing. A refusal changes nothing.
    pub fn split(&self, pass: &mut RingPass<S>) -> Result<RingPass<S>, Memory>
        requires of { IsOf S.allows S.good S.budget self.now pass.old }
        requires idle { (view_of pass.old).state ≡ Idle }
        ensures of { IsOf S.allows S.good S.budget self.now pass.new }
        ensures given { IfOk result (λ other. IsOf S.allows S.good S.budget self.now other × (view_of other ≡ right_of (view_of pass.old))) }
        ensures kept { OnOk result (view_of pass.new ≡ left_of (view_of pass.old)) }
        ensures unchanged { OnErr result (view_of pass.new ≡ view_of pass.old) }
    {
        let local = Local::new(self.alloc, self.shape)?;
        let seat = self.cut(pass);
        Ok(RingPass {
            local,
            seat,
            seals: 0,
        })
    }

    /// What the pass knows, for another pass to learn. It takes no memory.
    pub fn note(&self, pass: &mut RingPass<S>) -> Note<S>
        requires of { IsOf S.allows S.good S.budget self.now pass.old }
        requires idle { (view_of pass.old).state ≡ Idle }
        ensures of { IsOf S.allows S.good S.budget self.now pass.new }
        ensures given { IsNoteOf S.good S.budget self.now result × (note_view result ≡ right_of (view_of pass.old)) }
        ensures kept { view_of pass.new ≡ left_of (view_of pass.old) }
    {
        Note {
            seat: self.cut(pass),
        }
    }

    // A seat that knows as much as the pass does, and has nothing.
    fn cut(&self, pass: &mut RingPass<S>) -> RingSeat<S>
        requires of { IsOf S.allows S.good S.budget self.now pass.old }
        requires idle { (view_of pass.old).state ≡ Idle }
        ensures of { IsOf S.allows S.good S.budget self.now pass.new }
        ensures given { IsSeatOf S.good S.budget self.now.words.shared.key self.now.words.shared.table_id result ×
            (seat_view result ≡ right_of (view_of pass.old)) }
        ensures rests { IsResting self.now.words.shared.key result }
        ensures kept { view_of pass.new ≡ left_of (view_of pass.old) }
    {
        callers_change();
        opening_is_sound();
        split_shares();
        self.words.shared.split_seat::<Halves<S>>(&mut pass.seat)
    }

    // The seat of the pass takes in what another seat knows and has, with so many sealing commits.
    fn take_in(&self, pass: &mut RingPass<S>, seat: RingSeat<S>, seals: u64)
        requires of { IsOf S.allows S.good S.budget self.now pass.old }
        requires idle { (view_of pass.old).state ≡ Idle }
        requires other { IsSeatOf S.good S.budget self.now.words.shared.key self.now.words.shared.table_id seat }
        requires counted { seals ≡ seals_of (seat_view seat).history (seat_view seat).mine }
        ensures of { IsOf S.allows S.good S.budget self.now pass.new }
        ensures joined { Joined (view_of pass.old) (seat_view seat) (view_of pass.new) }
    {
        callers_change();
        joined_shares();
        merged_stamps();
        let shared = &self.words.shared;
        shared.join_seat::<Halves<S>>(&mut pass.seat, seat);
        shared.load::<Look<S>>(&mut pass.seat, 0);
        pass.seals += seals;
    }

    /// One pass of two. It knows what either knew, and has what both had.
    pub fn join(&self, pass: &mut RingPass<S>, other: RingPass<S>)
        requires of { IsOf S.allows S.good S.budget self.now pass.old × IsOf S.allows S.good S.budget self.now other }
        requires idle { ((view_of pass.old).state ≡ Idle) × ((view_of other).state ≡ Idle) }
        ensures of { IsOf S.allows S.good S.budget self.now pass.new }
        ensures joined { Joined (view_of pass.old) (view_of other) (view_of pass.new) }
    {
        let RingPass {
            local: _,
            seat,
            seals,
        } = other;
        self.take_in(pass, seat, seals);
    }

    /// The pass knows no less than what was noted: its front is no lower, and the commits of both stand in one history.
    pub fn learn(&self, pass: &mut RingPass<S>, note: Note<S>)
        requires of { IsOf S.allows S.good S.budget self.now pass.old × IsNoteOf S.good S.budget self.now note }
        requires idle { (view_of pass.old).state ≡ Idle }
        ensures of { IsOf S.allows S.good S.budget self.now pass.new }
        ensures joined { Joined (view_of pass.old) (note_view note) (view_of pass.new) }
    {
        let Note { seat } = note;
        self.take_in(pass, seat, 0);
    }
}
