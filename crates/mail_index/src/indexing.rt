//! An index that is made, and closed.
ghost use Rattle.std.specs.Prelude.{◌≡◌, ◌≤◌, ◌/◌, IfOk, length};
ghost use Rattle.ring_sig.specs.Signature.{IsWordCount};
ghost use Rattle.mail_words.specs.Lists.{postings_in};
ghost use Rattle.mail_index.specs.Indexed.{IsIndexed, IsIndexOf};

use mail_words::WordLists;
use mail_workers::{Gate, Jobs, run_workers};
use ring_memory::RingMemory;
use ring_words::{Closed, Ring, RingPass};
use std::alloc::Global;
use std::sync::Wait;
use std::thread::Threads;
use tx_heap::{MailSense, opening};
use tx_model::laws::pass_knows;
use tx_model::{Memory, TxMemory};

/// How many commits the memory has at most.
const LIFE: u64 = 1 << 60;

/// The index of the lists, made by so many workers in a memory on a ring of so many entries with signatures of so many words, and the
/// memory's one pass. The memory opens with no word in the index.
///
/// For want of memory the ring is closed again.
pub fn index_lists<G: Gate + Sync, R: Threads + Wait + Sync>(
    rt: &R,
    alloc: Global,
    lists: WordLists,
    entries: u64,
    sig_words: u64,
    workers: u64,
    gate: &G,
) -> Result<(RingMemory<MailSense>, RingPass<MailSense>), Memory>
    requires messages { length lists ≤ 1048576 }
    requires postings { postings_in lists ≤ 8388608 }
    requires entries { (1 ≤ entries) × (entries ≤ 4096) }
    requires signatures { IsWordCount sig_words }
    requires workers { (1 ≤ workers) × (workers ≤ 64) }
    ensures of { IfOk result (λ index. ⟦<RingMemory<MailSense> as TxMemory<MailSense>>⟧.of index.0 index.1) }
    ensures indexed { IfOk result (λ index. IsIndexed lists (⟦<RingMemory<MailSense> as TxMemory<MailSense>>⟧.made index.0)
        (⟦<RingMemory<MailSense> as TxMemory<MailSense>>⟧.view index.1)) }
{
    let sense = MailSense::of(lists);
    let plan = sense.plan();
    let (jobs, mut mine) = Jobs::fill(rt, alloc, plan.messages)?;
    let regions = plan.regions(alloc)?;
    let words = opening(alloc, &sense)?;
    let (ring, mut pass) = Ring::new(alloc, sense, words, regions, entries, sig_words, LIFE)?;
    let mem = RingMemory { ring };
    pass_knows(&mem, &pass);
    let report = run_workers(rt, alloc, &mem, &mut pass, &jobs, &mut mine, workers, gate);
    match report {
        Ok(_) => Ok((mem, pass)),
        Err(Memory) => {
            let RingMemory { ring } = mem;
            let _closed = ring.close(pass);
            Err(Memory)
        }
    }
}

/// Ends an index, once no other pass of the memory lives.
pub fn close_index(mem: RingMemory<MailSense>, pass: RingPass<MailSense>) -> Closed<MailSense>
    requires of { ⟦<RingMemory<MailSense> as TxMemory<MailSense>>⟧.of mem pass }
    requires indexed { IsIndexed (⟦<RingMemory<MailSense> as TxMemory<MailSense>>⟧.made mem).sense (⟦<RingMemory<MailSense> as TxMemory<MailSense>>⟧.made mem)
        (⟦<RingMemory<MailSense> as TxMemory<MailSense>>⟧.view pass) }
    ensures { IsIndexOf (⟦<RingMemory<MailSense> as TxMemory<MailSense>>⟧.made mem).sense result }
{
    pass_knows(&mem, &pass);
    let RingMemory { ring } = mem;
    ring.close(pass)
}
