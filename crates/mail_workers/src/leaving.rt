//! Leaving a full segment for a fresh one, tried until it is committed.
ghost use Rattle.std.specs.Prelude.{◌≡◌, ◌<◌};
ghost use Rattle.tx_model.specs.declared.pass.PassState.TheVariants.{Idle};
ghost use Rattle.tx_heap.specs.Calls.{made_sizes};
ghost use Rattle.tx_heap.specs.Mail.{mail_budget};
ghost use Rattle.mail_workers.specs.Indexing.{HasMoved};
ghost use Rattle.mail_workers.specs.Leaving.{HasLeft};

use std::convert::Infallible;
use std::sync::Wait;
use tx_heap::MailSense;
use tx_model::laws::pass_knows;
use tx_model::{Body, BodyStep, BodyStop, TxMemory, atomically};
use tx_postings::{Leaving, leave_full};

/// What is tried: to leave a lane's own segment, where it is the given one and full. Holds what the last attempt came to.
#[derive(Drop)]
struct Leave {
    lane: u64,
    segment: u64,
    leaving: Leaving,
}

impl<M: TxMemory<MailSense>> Body<MailSense, M> for Leave {
    ghost use Rattle.std.specs.Prelude.{[], ◌∷◌};
    ghost use Rattle.mail_workers.specs.Leaving.{MayLeave, DidTry};

    type Refusal = Infallible;

    ghost task = { λ leave. leave.lane ∷ leave.segment ∷ [] };

    ghost needs = { λ lists _ task _. MayLeave lists task };

    ghost did = { λ lists opening leave. DidTry lists opening leave.lane leave.segment leave.leaving };

    fn attempt(&mut self, mem: &M, pass: &mut M::Pass) -> Result<(), BodyStep<Infallible>> {
        self.leaving = leave_full(mem, pass, self.lane, self.segment)?;
        Ok(())
    }
}

/// Leaves a lane's own segment for a fresh one, where it is the given one and full, in one attempt after another until one is
/// committed. The old segment stays open. This is all that a worker does where a batch has no room.
pub fn leave_segment<M: TxMemory<MailSense>, R: Wait + Sync>(
    rt: &R,
    mem: &M,
    pass: &mut M::Pass,
    lane: u64,
    segment: u64,
) -> Leaving
    requires of { M.of mem.now pass.old }
    requires idle { (M.view pass.old).state ≡ Idle }
    requires lane { lane < 8 }
    requires segment { segment < (made_sizes (M.made mem.now)).segments }
    requires life { mail_budget (M.made mem.now).sense (M.made mem.now).opening < (M.made mem.now).life }
    ensures of { M.of mem.now pass.new }
    ensures idle { (M.view pass.new).state ≡ Idle }
    ensures left { HasLeft (M.made mem.now) (M.view pass.old) (M.view pass.new) lane segment result }
    ensures moved { HasMoved (M.made mem.now) (M.view pass.old) (M.view pass.new) }
{
    let mut leave = Leave {
        lane,
        segment,
        leaving: Leaving::Moved { current: segment },
    };
    match atomically(rt, mem, pass, &mut leave) {
        Ok(_) => {
            pass_knows(mem, pass);
            leave.leaving
        }
        Err(BodyStop::Worn { index: _ }) => {
            pass_knows(mem, pass);
            unreachable!()
        }
        Err(BodyStop::Refused { refusal: _ }) => unreachable!(),
    }
}
