//! A ring as the memory that the threads share, and how the largest one opens.
use crate::addresses::WORDS;
use crate::sense::Countdowns;
use crate::tally::Tally;
use crate::threads::{Plan, carry_out};
use crate::work::Task;
use ring_memory::RingMemory;
use ring_words::Ring;
use std::alloc::Global;
use std::sync::Wait;
use std::thread::Threads;
use tx_model::Memory;

/// How many entries the ring has.
const ENTRIES: u64 = 1024;

/// How long a signature is.
#[derive(Clone, Copy)]
pub enum Bits {
    /// 64 bits.
    Few,
    /// 1,024 bits.
    Many,
}

/// Carries a task out over a ring.
pub fn measure_ring<R: Threads + Wait + Sync>(
    rt: &R,
    alloc: Global,
    bits: Bits,
    task: Task,
    plan: Plan,
) -> Result<Tally, Memory> {
    let words = Vec::from_elem(alloc, plan.rounds, WORDS as usize).map_err(|_| Memory)?;
    let (ring, mut pass) = Ring::new(
        alloc,
        Countdowns,
        words,
        Vec::new(alloc),
        ENTRIES,
        match bits {
            Bits::Few => 1,
            Bits::Many => 16,
        },
        1 << 60,
    )?;
    let mem = RingMemory { ring };
    let tally = carry_out(rt, &mem, &mut pass, task, plan);
    let RingMemory { ring } = mem;
    drop(ring.close(pass));
    tally
}

/// Opens the largest ring that there is, of 4,096 entries with signatures of 1,024 bits and 2^27 words, and closes it.
pub fn open_largest(alloc: Global) -> Result<Tally, Memory> {
    let words = Vec::from_elem(alloc, 0, 1 << 27).map_err(|_| Memory)?;
    let (ring, pass) = Ring::new(alloc, Countdowns, words, Vec::new(alloc), 4096, 16, 1 << 60)?;
    drop(ring.close(pass));
    Ok(Tally::NOTHING)
}
