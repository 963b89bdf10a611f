//! Adding a batch of a message's words in one attempt.
ghost use Rattle.std.specs.Prelude.{◌≡◌, ◌≤◌, IfOk, IfErr};
ghost use Rattle.tx_model.specs.declared.pass.PassState.TheVariants.{Idle};
ghost use Rattle.tx_heap.specs.Calls.{made_sizes};
ghost use Rattle.tx_postings.specs.Adding.{HasAdded, NotAdded};

use crate::filling::fill_batch;
use crate::stops::AddStop;
use std::sync::Wait;
use tx_heap::MailSense;
use tx_model::laws::pass_knows;
use tx_model::{CommitError, Receipt, TxMemory};

/// What adding a batch answers: the receipt of its commit, and how many words of the message are still to come.
#[derive(Debug, Clone, Copy, PartialEq, Eq)]
pub struct Added {
    pub receipt: Receipt,
    pub left: u64,
}

/// Adds the next words of a message, at most 16, in one attempt. Where none was to come it commits having written nothing.
/// After a refusal nothing is committed.
pub fn add_batch<M: TxMemory<MailSense>, R: Wait + Sync>(
    rt: &R,
    mem: &M,
    pass: &mut M::Pass,
    message: u64,
) -> Result<Added, AddStop>
    requires of { M.of mem.now pass.old }
    requires idle { (M.view pass.old).state ≡ Idle }
    requires from_one { 1 ≤ message }
    requires to_last { message ≤ (made_sizes (M.made mem.now)).messages }
    ensures of { M.of mem.now pass.new }
    ensures idle { (M.view pass.new).state ≡ Idle }
    ensures share { (M.view pass.new).share ≡ (M.view pass.old).share }
    ensures added { IfOk result (HasAdded (M.made mem.now) (M.view pass.old) (M.view pass.new) message) }
    ensures refused { IfErr result (NotAdded (M.made mem.now) (M.shows mem.now) (M.view pass.old) (M.view pass.new) message) }
{
    mem.begin(rt, pass);
    let left = fill_batch(mem, pass, message)?;
    match mem.commit(rt, pass) {
        Ok(receipt) => {
            pass_knows(mem, pass);
            Ok(Added { receipt, left })
        }
        Err(CommitError::Stopped { stop }) => Err(AddStop::Stopped { stop }),
        Err(CommitError::Worn { index }) => {
            pass_knows(mem, pass);
            Err(AddStop::Worn { index })
        }
    }
}
