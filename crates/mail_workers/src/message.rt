//! Bringing the words of one message into the index, batch by batch.
ghost use Rattle.std.specs.Prelude.{◌≡◌, ◌<◌, ◌≤◌};
ghost use Rattle.tx_model.specs.declared.pass.PassState.TheVariants.{Idle};
ghost use Rattle.tx_heap.specs.Calls.{made_sizes};
ghost use Rattle.tx_heap.specs.Mail.{mail_budget};
ghost use Rattle.mail_workers.specs.Indexing.{HasMoved, NeedWas, IsFinished};

use crate::leaving::leave_segment;
use std::sync::Wait;
use tx_heap::MailSense;
use tx_model::laws::pass_knows;
use tx_model::{TxMemory, count_stop};
use tx_postings::{AddStop, add_batch};

/// Adds the next batch of a message, in one attempt after another until one is committed. Where it has no room the full segment
/// is left for a fresh one first. Answers how many words of the message are still to come.
fn add_words<M: TxMemory<MailSense>, R: Wait + Sync>(
    rt: &R,
    mem: &M,
    pass: &mut M::Pass,
    message: u64,
) -> u64
    requires of { M.of mem.now pass.old }
    requires idle { (M.view pass.old).state ≡ Idle }
    requires from_one { 1 ≤ message }
    requires to_last { message ≤ (made_sizes (M.made mem.now)).messages }
    requires life { mail_budget (M.made mem.now).sense (M.made mem.now).opening < (M.made mem.now).life }
    ensures of { M.of mem.now pass.new }
    ensures idle { (M.view pass.new).state ≡ Idle }
    ensures moved { HasMoved (M.made mem.now) (M.view pass.old) (M.view pass.new) }
    ensures left { NeedWas (M.made mem.now) (M.view pass.new).history (M.view pass.old).front message result }
{
    let mut stops = 0;
    for _ in rt.forever() {
        match add_batch(rt, mem, pass, message) {
            Ok(added) => {
                pass_knows(mem, pass);
                return added.left;
            }
            Err(
                AddStop::Room {
                    lane,
                    segment,
                    free: _,
                    needs: _,
                },
            ) => {
                pass_knows(mem, pass);
                let _leaving = leave_segment(rt, mem, pass, lane, segment);
            }
            Err(AddStop::Stopped { stop: _ }) => stops = count_stop(stops),
            Err(AddStop::Worn { index: _ }) => unreachable!(),
        }
    }
    unreachable!()
}

/// Brings all words of a message into the index that aren't there yet.
pub fn index_message<M: TxMemory<MailSense>, R: Wait + Sync>(
    rt: &R,
    mem: &M,
    pass: &mut M::Pass,
    message: u64,
)
    requires of { M.of mem.now pass.old }
    requires idle { (M.view pass.old).state ≡ Idle }
    requires from_one { 1 ≤ message }
    requires to_last { message ≤ (made_sizes (M.made mem.now)).messages }
    requires life { mail_budget (M.made mem.now).sense (M.made mem.now).opening < (M.made mem.now).life }
    ensures of { M.of mem.now pass.new }
    ensures idle { (M.view pass.new).state ≡ Idle }
    ensures moved { HasMoved (M.made mem.now) (M.view pass.old) (M.view pass.new) }
    ensures finished { IsFinished (M.made mem.now) (M.view pass.new).history (M.view pass.old).front message }
{
    for _ in rt.forever() {
        let left = add_words(rt, mem, pass, message);
        if left == 0 {
            return;
        }
    }
    unreachable!()
}
