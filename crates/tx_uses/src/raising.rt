//! Raising a word until it is done.
ghost use Rattle.std.specs.Prelude.{◌≡◌, ◌<◌, length, IfOk, IfErr, OnErr};
ghost use Rattle.tx_model.specs.declared.pass.PassState.TheVariants.{Idle};
ghost use Rattle.tx_model.specs.Calls.{IsLater};
ghost use Rattle.tx_uses.specs.Raised.{Raised, NotRaised};

use crate::countdown::Countdown;
use crate::raise::{Raise, RaiseRefusal};
use std::sync::Wait;
use tx_model::laws::pass_knows;
use tx_model::{BodyStop, Receipt, TxMemory, atomically};

/// Adds one to a word, with one commit less to come.
pub fn raise_word<M: TxMemory<Countdown>, R: Wait + Sync>(
    rt: &R,
    mem: &M,
    pass: &mut M::Pass,
    word: u64,
) -> Result<Receipt, BodyStop<RaiseRefusal>>
    requires of { M.of mem.now pass.old }
    requires idle { (M.view pass.old).state ≡ Idle }
    requires other { 0 < word }
    requires within { word < length (M.made mem.now).opening }
    ensures of { M.of mem.now pass.new }
    ensures idle { (M.view pass.new).state ≡ Idle }
    ensures share { (M.view pass.new).share ≡ (M.view pass.old).share }
    ensures owned { (M.view pass.new).owned ≡ (M.view pass.old).owned }
    ensures raised { IfOk result (Raised (M.made mem.now).opening word (M.view pass.old) (M.view pass.new)) }
    ensures not_raised { IfErr result (NotRaised (M.made mem.now).opening (M.made mem.now).life word (M.view pass.old) (M.view pass.new)) }
    ensures later { OnErr result (IsLater (M.view pass.old) (M.view pass.new)) }
{
    let mut body = Raise::of(word);
    let done = atomically(rt, mem, pass, &mut body);
    pass_knows(mem, pass);
    done
}
