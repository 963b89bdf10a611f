//! What one worker does.
ghost use Rattle.std.specs.Prelude.{◌≡◌, ◌<◌, ◌≤◌, ◌++◌, IfOk, OnOk};
ghost use Rattle.std.specs.List.{range_with_len};
ghost use Rattle.tx_model.specs.declared.pass.PassState.TheVariants.{Idle};
ghost use Rattle.tx_heap.specs.Calls.{made_sizes};
ghost use Rattle.tx_heap.specs.Mail.{mail_budget};
ghost use Rattle.mail_workers.specs.JobPasses.{IsJobPassOf, job_view};
ghost use Rattle.mail_workers.specs.Jobs.{IsWholeJob};
ghost use Rattle.mail_workers.specs.Indexing.{HasMoved, AreFinished};

use crate::gate::Gate;
use crate::jobs::{JobPass, Jobs};
use crate::message::index_message;
use crate::report::{Drawn, Report};
use std::alloc::Global;
use std::sync::Wait;
use tx_heap::MailSense;
use tx_model::{Memory, TxMemory};

/// Draws messages until there are none, and brings all words of each into the index. The gate is told of a message after it was
/// drawn, and before the first attempt at it.
///
/// The report has the numbers that were drawn, in order. At `Memory` too, all that were drawn are in the index.
pub fn work<M: TxMemory<MailSense>, G: Gate, R: Wait + Sync>(
    rt: &R,
    alloc: Global,
    mem: &M,
    pass: &mut M::Pass,
    jobs: &Jobs,
    mine: &mut JobPass,
    worker: u64,
    gate: &G,
) -> Result<Report, Memory>
    requires of { M.of mem.now pass.old }
    requires idle { (M.view pass.old).state ≡ Idle }
    requires mine { IsJobPassOf jobs.now mine.old }
    requires filled { (job_view mine.old).total ≤ (made_sizes (M.made mem.now)).messages }
    requires life { mail_budget (M.made mem.now).sense (M.made mem.now).opening < (M.made mem.now).life }
    ensures of { M.of mem.now pass.new }
    ensures idle { (M.view pass.new).state ≡ Idle }
    ensures moved { HasMoved (M.made mem.now) (M.view pass.old) (M.view pass.new) }
    ensures mine { IsJobPassOf jobs.now mine.new }
    ensures total { (job_view mine.new).total ≡ (job_view mine.old).total }
    ensures job_share { (job_view mine.new).share ≡ (job_view mine.old).share }
    ensures drawn { IfOk result (λ report. (job_view mine.new).drawn ≡ (job_view mine.old).drawn ++ report.drawn) }
    ensures finished { AreFinished (M.made mem.now) (M.view pass.old).front (job_view mine.old).drawn (job_view mine.new).drawn (M.view pass.new) }
    ensures all { OnOk result (IsWholeJob (job_view mine.new) → (job_view mine.new).drawn ≡ range_with_len 1 (job_view mine.new).total) }
{
    let mut drawn = Vec::new(alloc);
    for _ in rt.forever() {
        let Ok(()) = drawn.reserve(1) else {
            return Err(Memory);
        };
        let Some(message) = jobs.draw(rt, mine) else {
            return Ok(Report {
                drawn: Drawn::of(drawn),
            });
        };
        gate.arrive(worker, message);
        index_message(rt, mem, pass, message);
        drawn.push_reserved(message);
    }
    unreachable!()
}
