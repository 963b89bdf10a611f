//! A word that is raised by a further pass.
ghost use Rattle.std.specs.Prelude.{◌≡◌, ◌<◌, length, IfOk, IfErr, OnErr};
ghost use Rattle.tx_model.specs.declared.pass.PassState.TheVariants.{Idle};
ghost use Rattle.tx_model.specs.Calls.{IsLater};
ghost use Rattle.tx_uses.specs.Raised.{Raised};
ghost use Rattle.tx_uses.specs.Apart.{NotRaisedApart, SeenAfter, NotSeen};

use crate::countdown::Countdown;
use crate::raise::RaiseRefusal;
use crate::raising::raise_word;
use crate::reads::read_now;
use std::sync::Wait;
use thiserror::Error;
use tx_model::laws::{pass_knows, rejoined_share, state_laws};
use tx_model::{BodyStop, Receipt, Stop, TxMemory};

/// Why a further pass raised nothing.
#[derive(Clone, Copy, Debug, PartialEq, Eq, Error)]
pub enum ApartStop {
    /// Want of memory.
    #[error("no memory")]
    Memory,
    /// The further pass didn't raise the word.
    #[error("{stop}")]
    NotRaised { stop: BodyStop<RaiseRefusal> },
}

/// A word that was raised, and what it was afterwards.
#[derive(Clone, Copy, Debug, PartialEq, Eq)]
pub struct Seen {
    pub receipt: Receipt,
    pub value: u64,
}

/// Why a word wasn't raised and then read.
#[derive(Clone, Copy, Debug, PartialEq, Eq, Error)]
pub enum SeenStop {
    /// It wasn't raised.
    #[error("{stop}")]
    NotRaised { stop: ApartStop },
    /// It was raised, and then the memory stopped the attempt that was to read it.
    #[error("{stop}")]
    Stopped { receipt: Receipt, stop: Stop },
}

/// Raises a word by a further pass, which is split off before and joined again after.
pub fn raise_apart<M: TxMemory<Countdown>, R: Wait + Sync>(
    rt: &R,
    mem: &M,
    pass: &mut M::Pass,
    word: u64,
) -> Result<Receipt, ApartStop>
    requires of { M.of mem.now pass.old }
    requires idle { (M.view pass.old).state ≡ Idle }
    requires other { 0 < word }
    requires within { word < length (M.made mem.now).opening }
    ensures of { M.of mem.now pass.new }
    ensures idle { (M.view pass.new).state ≡ Idle }
    ensures share { (M.view pass.new).share ≡ (M.view pass.old).share }
    ensures owned { (M.view pass.new).owned ≡ (M.view pass.old).owned }
    ensures raised { IfOk result (Raised (M.made mem.now).opening word (M.view pass.old) (M.view pass.new)) }
    ensures not_raised { IfErr result (NotRaisedApart (M.made mem.now).opening (M.made mem.now).life word (M.view pass.old) (M.view pass.new)) }
    ensures later { OnErr result (IsLater (M.view pass.old) (M.view pass.new)) }
{
    pass_knows(mem, pass);
    rejoined_share();
    state_laws();
    let mut other = match mem.split(pass) {
        Ok(other) => other,
        Err(_) => return Err(ApartStop::Memory),
    };
    let raised = raise_word(rt, mem, &mut other, word);
    pass_knows(mem, &other);
    mem.join(pass, other);
    pass_knows(mem, pass);
    match raised {
        Ok(receipt) => Ok(receipt),
        Err(stop) => Err(ApartStop::NotRaised { stop }),
    }
}

/// Raises a word by a further pass, and then reads it with the first one, in a state that has it raised.
pub fn raise_then_read<M: TxMemory<Countdown>, R: Wait + Sync>(
    rt: &R,
    mem: &M,
    pass: &mut M::Pass,
    word: u64,
) -> Result<Seen, SeenStop>
    requires of { M.of mem.now pass.old }
    requires idle { (M.view pass.old).state ≡ Idle }
    requires other { 0 < word }
    requires within { word < length (M.made mem.now).opening }
    ensures of { M.of mem.now pass.new }
    ensures idle { (M.view pass.new).state ≡ Idle }
    ensures share { (M.view pass.new).share ≡ (M.view pass.old).share }
    ensures owned { (M.view pass.new).owned ≡ (M.view pass.old).owned }
    ensures seen { IfOk result (SeenAfter (M.made mem.now).opening word (M.view pass.old) (M.view pass.new)) }
    ensures not_seen { IfErr result (NotSeen (M.shows mem.now) (M.made mem.now).opening (M.made mem.now).life word (M.view pass.old) (M.view pass.new)) }
{
    state_laws();
    let receipt = match raise_apart(rt, mem, pass, word) {
        Ok(receipt) => receipt,
        Err(stop) => return Err(SeenStop::NotRaised { stop }),
    };
    pass_knows(mem, pass);
    match read_now(rt, mem, pass, word) {
        Ok(value) => Ok(Seen { receipt, value }),
        Err(stop) => Err(SeenStop::Stopped { receipt, stop }),
    }
}
