//! A note that the last pass learns before its ring is closed.
ghost use Rattle.std.specs.Prelude.{◌≡◌};
ghost use Rattle.tx_model.specs.Pass.{IsWhole};
ghost use Rattle.tx_model.specs.declared.pass.PassState.TheVariants.{Idle};
ghost use Rattle.ring_words.specs.Pass.{made_by, view_of, IsOf};

use ring_words::{Closed, Ring, RingPass};
use tx_model::Sense;

/// Notes what the last pass knows, learns it again, and closes the ring.
pub fn closed_after_a_note<S: Sense>(ring: Ring<S>, pass: RingPass<S>) -> Closed<S>
    requires of { IsOf S.allows S.good S.budget ring pass }
    requires idle { (view_of pass).state ≡ Idle }
    requires whole { IsWhole (view_of pass) }
    ensures made { result.made ≡ made_by ring }
{
    let mut last = pass;
    let note = ring.note(&mut last);
    ring.learn(&mut last, note);
    ring.close(last)
}
