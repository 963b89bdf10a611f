//! The ring as a transaction memory.
ghost use Rattle.std.specs.Prelude.{◌≡◌, ◌≤◌, ◌^◌, length, IfOk};
ghost use Rattle.ring_sig.specs.Signature.{IsWordCount};
ghost use Rattle.tx_model.specs.declared.pass.PassState.TheVariants.{Idle};
ghost use Rattle.ring_words.specs.Pass.{made_by, view_of, first_pass, IsOf};

use crate::leaves::leaves;
use ring_memory::RingMemory;
use ring_words::{Closed, Ring, RingPass};
use std::alloc::Global;
use std::sync::Wait;
use std::test::Fail;
use tx_model::{Memory, Sense, TxMemory};
use tx_uses::{Countdown, raise_word, read_now};

/// A ring of so many entries with signatures of so many words, over these words, and its first pass.
fn counting(
    alloc: Global,
    words: Vec<u64>,
    entries: u64,
    sig_words: u64,
) -> Result<(Ring<Countdown>, RingPass<Countdown>), Memory>
    requires size { (1 ≤ length words.items) × (length words.items ≤ 2 ^ 27) }
    requires entries { (1 ≤ entries) × (entries ≤ 4096) }
    requires signatures { IsWordCount sig_words }
    ensures of { IfOk result (λ r. IsOf ⟦<Countdown as Sense>⟧.allows ⟦<Countdown as Sense>⟧.good ⟦<Countdown as Sense>⟧.budget r.0 r.1) }
    ensures opening { IfOk result (λ r. (made_by r.0).opening ≡ words.items) }
    ensures view { IfOk result (λ r. view_of r.1 ≡ first_pass) }
{
    Ring::new(
        alloc,
        Countdown,
        words,
        Vec::new(alloc),
        entries,
        sig_words,
        9000,
    )
}

/// Raises word 1 so many times, and reads it.
fn raised_and_read<M: TxMemory<Countdown>, R: Wait + Sync>(
    rt: &R,
    mem: &M,
    pass: &mut M::Pass,
    times: u64,
) -> Option<u64>
    requires of { M.of mem.now pass.old }
    requires idle { (M.view pass.old).state ≡ Idle }
    ensures of { M.of mem.now pass.new }
    ensures idle { (M.view pass.new).state ≡ Idle }
    ensures share { (M.view pass.new).share ≡ (M.view pass.old).share }
{
    if mem.len() < 2 {
        return None;
    }
    for _ in 0..times {
        if raise_word(rt, mem, pass, 1).is_err() {
            return None;
        }
    }
    read_now(rt, mem, pass, 1).ok()
}

/// Raises word 1 of a ring of so many entries so many times, reads it, and closes the ring.
fn raised<R: Wait + Sync>(
    rt: &R,
    alloc: Global,
    words: Vec<u64>,
    entries: u64,
    times: u64,
) -> Result<(Option<u64>, Closed<Countdown>), Memory>
    requires size { (1 ≤ length words.items) × (length words.items ≤ 2 ^ 27) }
    requires entries { (1 ≤ entries) × (entries ≤ 4096) }
{
    let (ring, mut pass) = counting(alloc, words, entries, 1)?;
    let mem = RingMemory { ring };
    let value = raised_and_read(rt, &mem, &mut pass, times);
    let RingMemory { ring } = mem;
    Ok((value, ring.close(pass)))
}

// Word 0 counts down, so that there is a commit less to come with each that there was.
#[test]
fn a_word_is_raised_three_times(rt: HostRuntime) -> Result<(), Fail> {
    let words = vec![in rt.alloc(); 5000, 7]?;
    let (value, closed) = raised(&rt, rt.alloc(), words, 1, 3)?;
    assert_eq!(rt; value, Some(10));
    leaves(&rt, &closed, 3, &[(0, 4997), (1, 10)]);
    Ok(())
}

// The next attempt of the pass begins where its own commit is complete, and reads what that stored.
#[test]
fn the_next_attempt_reads_what_a_commit_stored(rt: HostRuntime) -> Result<(), Fail> {
    let words = vec![in rt.alloc(); 5000, 6]?;
    let (value, closed) = raised(&rt, rt.alloc(), words, 4, 1)?;
    assert_eq!(rt; value, Some(7));
    leaves(&rt, &closed, 1, &[(1, 7)]);
    Ok(())
}
