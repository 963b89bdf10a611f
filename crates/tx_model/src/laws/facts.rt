//! What is known of every memory and pass, as functions that do nothing: a call brings the facts into a proof.
ghost use Rattle.std.specs.Prelude.{◌≡◌};
ghost use Rattle.tx_model.specs.declared.pass.PassState.TheVariants.{Active};
ghost use Rattle.tx_model.specs.Laws.{NeverStopsWhole};
ghost use Rattle.tx_model.specs.Made.{IsMade};
ghost use Rattle.tx_model.specs.Opacity.{ReadFromState};
ghost use Rattle.tx_model.specs.Pass.{IsPass};

use crate::memory::TxMemory;
use crate::sense::Sense;

/// What a memory was made with is in order.
pub fn made_well<S: Sense, M: TxMemory<S>>(_mem: &M, _pass: &M::Pass)
    requires of { M.of _mem.now _pass.now }
    ensures { IsMade S.allows S.good (M.made _mem.now) }
{}

/// What a pass stands for is a beginning of one legal history, whose states are good.
pub fn pass_knows<S: Sense, M: TxMemory<S>>(_mem: &M, _pass: &M::Pass)
    requires of { M.of _mem.now _pass.now }
    ensures { IsPass S.good S.budget (M.made _mem.now) (M.view _pass.now) (M.attempt _pass.now) }
{}

/// While no other pass lives, an attempt is never stopped.
pub fn whole_never_stops<S: Sense, M: TxMemory<S>>(_mem: &M)
    ensures { NeverStopsWhole (M.of _mem.now) M.view M.attempt (M.shows _mem.now) }
{}

/// The reads of an open attempt are of one state.
pub fn reads_one_state<S: Sense, M: TxMemory<S>>(_mem: &M, _pass: &M::Pass)
    requires of { M.of _mem.now _pass.now }
    requires active { (M.view _pass.now).state ≡ Active }
    ensures { ReadFromState (M.made _mem.now).opening (M.view _pass.now).history (M.attempt _pass.now).reads (M.attempt _pass.now).start }
{}
