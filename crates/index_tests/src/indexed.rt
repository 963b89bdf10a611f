//! Mailboxes that workers bring into an index, over each of the memories.
ghost use Rattle.std.specs.Prelude.{◌≡◌, ◌<◌, ◌≤◌, IfOk};
ghost use Rattle.tx_model.specs.declared.pass.PassState.TheVariants.{Idle};
ghost use Rattle.tx_model.specs.Made.{IsMade};
ghost use Rattle.tx_model.specs.Pass.{IsWhole};
ghost use Rattle.tx_heap.specs.Mail.{AllowsRegions, IsGoodMail, mail_budget};
ghost use Rattle.mail_answers.specs.Complete.{IsComplete, last_index};

use mail_workers::{Gate, Jobs, Report, run_workers};
use ring_memory::RingMemory;
use ring_words::{Closed, Ring};
use std::alloc::Global;
use std::sync::Wait;
use std::thread::Threads;
use turn_memory::{TurnMemory, TurnPass};
use tx_heap::{MailSense, opening};
use tx_model::{Memory, Region, TxMemory};

/// The memory that an index lies in.
#[derive(Clone, Copy)]
pub enum Over {
    /// The one that runs one attempt at a time.
    TurnMemory,
    /// The one on a ring.
    RingMemory,
}

/// What a memory with an index is made with.
struct Start {
    sense: MailSense,
    words: Vec<u64>,
    regions: Vec<Region>,
    life: u64,
}

fn start_of(alloc: Global, sense: MailSense) -> Result<Start, Memory>
    ensures sense { IfOk result (λ start. start.sense ≡ sense) }
    ensures made { IfOk result (λ start. IsMade AllowsRegions IsGoodMail
        (record { sense = start.sense; opening = start.words.items; regions = start.regions.items; life = start.life })) }
    ensures life { IfOk result (λ start. mail_budget start.sense start.words.items < start.life) }
{
    let plan = sense.plan();
    let life = sense.lists().postings() + 2 * plan.segments + 1;
    let words = opening(alloc, &sense)?;
    let regions = plan.regions(alloc)?;
    Ok(Start {
        sense,
        words,
        regions,
        life,
    })
}

/// All messages, brought into the index by so many workers, and the words of the last state.
pub fn indexed_by<G: Gate + Sync, R: Threads + Wait + Sync>(
    rt: &R,
    alloc: Global,
    over: Over,
    sense: MailSense,
    workers: u64,
    gate: &G,
) -> Result<(Report, Vec<u64>), Memory>
    requires workers { (1 ≤ workers) × (workers ≤ 64) }
{
    match over {
        Over::TurnMemory => indexed_over_turn_memory(rt, alloc, sense, workers, gate),
        Over::RingMemory => indexed_over_ring(rt, alloc, sense, workers, gate),
    }
}

/// The index of all messages in a memory that runs one attempt at a time, made by so many workers, and the memory's one pass.
pub fn in_turn_memory<G: Gate + Sync, R: Threads + Wait + Sync>(
    rt: &R,
    alloc: Global,
    sense: MailSense,
    workers: u64,
    gate: &G,
) -> Result<(TurnMemory<MailSense>, TurnPass<MailSense>, Report), Memory>
    requires workers { (1 ≤ workers) × (workers ≤ 64) }
    ensures of { IfOk result (λ index. ⟦<TurnMemory<MailSense> as TxMemory<MailSense>>⟧.of index.0 index.1) }
    ensures idle { IfOk result (λ index. (⟦<TurnMemory<MailSense> as TxMemory<MailSense>>⟧.view index.1).state ≡ Idle) }
    ensures whole { IfOk result (λ index. IsWhole (⟦<TurnMemory<MailSense> as TxMemory<MailSense>>⟧.view index.1)) }
    ensures complete { IfOk result (λ index. IsComplete (⟦<TurnMemory<MailSense> as TxMemory<MailSense>>⟧.made index.0).sense
        (last_index (⟦<TurnMemory<MailSense> as TxMemory<MailSense>>⟧.made index.0)
        (⟦<TurnMemory<MailSense> as TxMemory<MailSense>>⟧.view index.1).history)) }
{
    let (jobs, mut mine) = Jobs::fill(rt, alloc, sense.plan().messages)?;
    let Start {
        sense,
        words,
        regions,
        life,
    } = start_of(alloc, sense)?;
    let (mem, mut pass) = TurnMemory::new(alloc, sense, words, regions, life)?;
    match run_workers(rt, alloc, &mem, &mut pass, &jobs, &mut mine, workers, gate) {
        Ok(report) => Ok((mem, pass, report)),
        Err(Memory) => {
            let _words = mem.close(pass);
            Err(Memory)
        }
    }
}

fn indexed_over_turn_memory<G: Gate + Sync, R: Threads + Wait + Sync>(
    rt: &R,
    alloc: Global,
    sense: MailSense,
    workers: u64,
    gate: &G,
) -> Result<(Report, Vec<u64>), Memory>
    requires workers { (1 ≤ workers) × (workers ≤ 64) }
{
    let (mem, pass, report) = in_turn_memory(rt, alloc, sense, workers, gate)?;
    Ok((report, mem.close(pass)))
}

fn indexed_over_ring<G: Gate + Sync, R: Threads + Wait + Sync>(
    rt: &R,
    alloc: Global,
    sense: MailSense,
    workers: u64,
    gate: &G,
) -> Result<(Report, Vec<u64>), Memory>
    requires workers { (1 ≤ workers) × (workers ≤ 64) }
{
    let (jobs, mut mine) = Jobs::fill(rt, alloc, sense.plan().messages)?;
    let Start {
        sense,
        words,
        regions,
        life,
    } = start_of(alloc, sense)?;
    let (ring, mut pass) = Ring::new(alloc, sense, words, regions, 64, 16, life)?;
    let mem = RingMemory { ring };
    let report = run_workers(rt, alloc, &mem, &mut pass, &jobs, &mut mine, workers, gate);
    let RingMemory { ring } = mem;
    let words = words_of(alloc, &ring.close(pass));
    Ok((report?, words?))
}

/// The words of a ring that was closed.
fn words_of(alloc: Global, closed: &Closed<MailSense>) -> Result<Vec<u64>, Memory> {
    let mut words = Vec::new(alloc);
    for addr in 0..closed.len() {
        let Ok(()) = words.push(closed.word(addr)) else {
            return Err(Memory);
        };
    }
    Ok(words)
}
