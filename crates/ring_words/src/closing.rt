//! How a ring is closed.
ghost use Rattle.std.specs.Prelude.{◌≡◌};
ghost use Rattle.tx_model.specs.declared.pass.PassState.TheVariants.{Idle};
ghost use Rattle.tx_model.specs.History.{IsLegal};
ghost use Rattle.tx_model.specs.Pass.{IsWhole};
ghost use Rattle.ring_words.specs.Pass.{IsOf, made_by, view_of};
ghost use Rattle.ring_words.specs.Closing.{ending};

use crate::closed::Closed;
use crate::pass::RingPass;
use crate::ring::Ring;
use std::snapshot::Snapshot;
use tx_model::Sense;

impl<S: Sense> Ring<S> {
    /// Ends the sharing. Every other pass and every note was spent.
    pub fn close(self, pass: RingPass<S>) -> Closed<S>
        requires of { IsOf S.allows S.good S.budget self pass }
        requires idle { (view_of pass).state ≡ Idle }
        requires whole { IsWhole (view_of pass) }
        ensures ending { result ≡ ending (made_by self) (view_of pass) }
        ensures legal { IsLegal result.made.opening result.history }
    {
        let Ring {
            words,
            sense,
            shape,
            alloc: _,
        } = self;
        let RingPass {
            local: _,
            seat,
            seals,
        } = pass;
        let last = Snapshot::of(&seat);
        let table = words.close_with(seat);
        Closed {
            table,
            sense,
            shape,
            seals,
            seat: last,
        }
    }
}
