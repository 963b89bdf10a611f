//! Workers that bring the words of a mailbox into an index, over each of the memories.
ghost use Rattle.std.specs.Prelude.{◌≡◌, ◌<◌, ◌≤◌, []};
ghost use Rattle.tx_model.specs.declared.pass.PassState.TheVariants.{Idle};
ghost use Rattle.tx_model.specs.Pass.{IsWhole};
ghost use Rattle.tx_heap.specs.Calls.{made_sizes};
ghost use Rattle.tx_heap.specs.Mail.{mail_budget};
ghost use Rattle.mail_workers.specs.JobPasses.{IsJobPassOf, job_view};
ghost use Rattle.mail_workers.specs.Jobs.{IsWholeJob};

use crate::start::{Start, start_of};
use mail_workers::{JobPass, Jobs, OpenGate, run_workers};
use ring_memory::RingMemory;
use ring_words::Ring;
use std::alloc::Global;
use std::sync::Wait;
use std::thread::Threads;
use turn_memory::TurnMemory;
use tx_heap::MailSense;
use tx_model::{Memory, TxMemory};

/// How many entries the ring has.
const ENTRIES: u64 = 1_024;

/// How many words its signatures have.
const SIG_WORDS: u64 = 16;

/// Lets so many workers index all messages, where there are any workers.
fn worked<M: TxMemory<MailSense> + Sync, R: Threads + Wait + Sync>(
    rt: &R,
    alloc: Global,
    mem: &M,
    pass: &mut M::Pass,
    jobs: &Jobs,
    mine: &mut JobPass,
    workers: u64,
) -> Result<(), Memory>
where
    M::Pass: Send,
    requires of { M.of mem.now pass.old }
    requires idle { (M.view pass.old).state ≡ Idle }
    requires whole { IsWhole (M.view pass.old) }
    requires owns_none { (M.view pass.old).owned ≡ [] }
    requires mine { IsJobPassOf jobs.now mine.old }
    requires filled { (job_view mine.old).total ≡ (made_sizes (M.made mem.now)).messages }
    requires whole_job { IsWholeJob (job_view mine.old) }
    requires none_drawn { (job_view mine.old).drawn ≡ [] }
    requires workers { workers ≤ 64 }
    requires life { mail_budget (M.made mem.now).sense (M.made mem.now).opening < (M.made mem.now).life }
    ensures of { M.of mem.now pass.new }
    ensures idle { (M.view pass.new).state ≡ Idle }
    ensures share { (M.view pass.new).share ≡ (M.view pass.old).share }
{
    if workers == 0 {
        return Ok(());
    }
    match run_workers(rt, alloc, mem, pass, jobs, mine, workers, &OpenGate) {
        Ok(_report) => Ok(()),
        Err(Memory) => Err(Memory),
    }
}

/// How many segments are in use once so many workers have indexed all messages over the memory that runs one attempt at a time.
pub fn indexed_over_turn_memory<R: Threads + Wait + Sync>(
    rt: &R,
    alloc: Global,
    sense: MailSense,
    workers: u64,
) -> Result<u64, Memory>
    requires workers { workers ≤ 64 }
{
    let (jobs, mut mine) = Jobs::fill(rt, alloc, sense.plan().messages)?;
    let Start {
        sense,
        words,
        regions,
        life,
    } = start_of(alloc, sense)?;
    let (mem, mut pass) = TurnMemory::new(alloc, sense, words, regions, life)?;
    let outcome = worked(rt, alloc, &mem, &mut pass, &jobs, &mut mine, workers);
    let words = mem.close(pass);
    outcome?;
    Ok(words.first().copied().unwrap_or(0))
}

/// How many segments are in use once so many workers have indexed all messages over a ring.
pub fn indexed_over_ring<R: Threads + Wait + Sync>(
    rt: &R,
    alloc: Global,
    sense: MailSense,
    workers: u64,
) -> Result<u64, Memory>
    requires workers { workers ≤ 64 }
{
    let (jobs, mut mine) = Jobs::fill(rt, alloc, sense.plan().messages)?;
    let Start {
        sense,
        words,
        regions,
        life,
    } = start_of(alloc, sense)?;
    let (ring, mut pass) = Ring::new(alloc, sense, words, regions, ENTRIES, SIG_WORDS, life)?;
    let mem = RingMemory { ring };
    let outcome = worked(rt, alloc, &mem, &mut pass, &jobs, &mut mine, workers);
    let RingMemory { ring } = mem;
    let closed = ring.close(pass);
    outcome?;
    Ok(if closed.len() == 0 { 0 } else { closed.word(0) })
}
