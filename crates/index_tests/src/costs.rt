//! What a batch of made words costs, as a memory counts it that hands each call on. A second way of counting, beside the contracts.
ghost use Rattle.std.specs.Prelude.{◌≡◌, ◌≤◌};
ghost use Rattle.tx_model.specs.declared.pass.PassState.TheVariants.{Idle};

use crate::counting::{Counting, Counts};
use crate::mailbox::{index_of, made_messages};
use crate::postings::left;
use std::alloc::Global;
use std::sync::Wait;
use std::test::Fail;
use tx_heap::MailSense;
use tx_model::TxMemory;
use tx_postings::{AddStop, add_batch};

/// The most words of a batch.
const FULL: u64 = 16;

/// What the full batches so far took.
#[derive(Clone, Copy)]
struct Tally {
    batches: u64,
    reads: u64,
    writes: u64,
}

impl Tally {
    /// With one more batch, after which so many words of the message are still to come, of so many before.
    fn with(self, to_come: u64, left: u64, before: Counts, now: Counts) -> Tally {
        if to_come.saturating_sub(left) < FULL {
            return self;
        }
        Tally {
            batches: self.batches.saturating_add(1),
            reads: self
                .reads
                .saturating_add(now.reads.saturating_sub(before.reads)),
            writes: self
                .writes
                .saturating_add(now.writes.saturating_sub(before.writes)),
        }
    }

    /// Whether a full batch made at most so many reads and writes on average.
    fn is_within(&self, reads: u64, writes: u64) -> bool {
        self.batches > 0
            && self.reads <= self.batches.saturating_mul(reads)
            && self.writes <= self.batches.saturating_mul(writes)
    }
}

/// Adds all batches of a message, where nothing stops them. A full segment is left for a fresh one first.
fn tally_message<M: TxMemory<MailSense>, R: Wait + Sync>(
    rt: &R,
    mem: &Counting<M>,
    pass: &mut M::Pass,
    message: u64,
    tally: Tally,
) -> Option<Tally>
    requires of { M.of mem.now.mem pass.old }
    requires idle { (M.view pass.old).state ≡ Idle }
    ensures of { M.of mem.now.mem pass.new }
    ensures idle { (M.view pass.new).state ≡ Idle }
    ensures share { (M.view pass.new).share ≡ (M.view pass.old).share }
{
    if message < 1 || message > mem.sense().plan().messages {
        return None;
    }
    let mut tally = tally;
    let mut to_come = mem.sense().lists().list(message).len() as u64;
    for _ in 0..1_000 {
        let before = mem.counts();
        match add_batch(rt, mem, pass, message) {
            Ok(added) => {
                tally = tally.with(to_come, added.left, before, mem.counts());
                to_come = added.left;
            }
            Err(
                AddStop::Room {
                    lane,
                    segment,
                    free: _,
                    needs: _,
                },
            ) => {
                left(rt, mem, pass, lane, segment)?;
            }
            Err(_) => return None,
        }
        if to_come == 0 {
            return Some(tally);
        }
    }
    None
}

/// Adds every so many-th message.
fn tally_every<M: TxMemory<MailSense>, R: Wait + Sync>(
    rt: &R,
    mem: &Counting<M>,
    pass: &mut M::Pass,
    every: u64,
) -> Option<Tally>
    requires of { M.of mem.now.mem pass.old }
    requires idle { (M.view pass.old).state ≡ Idle }
    requires every { 1 ≤ every }
    ensures of { M.of mem.now.mem pass.new }
    ensures idle { (M.view pass.new).state ≡ Idle }
    ensures share { (M.view pass.new).share ≡ (M.view pass.old).share }
{
    let mut tally = Tally {
        batches: 0,
        reads: 0,
        writes: 0,
    };
    for index in 0..mem.sense().plan().messages {
        if index % every == 0 {
            tally = tally_message(rt, mem, pass, index + 1, tally)?;
        }
    }
    Some(tally)
}

/// What every so many-th of so many made messages takes.
fn tally_made<R: Wait + Sync>(
    rt: &R,
    alloc: Global,
    messages: u64,
    every: u64,
) -> Result<Tally, Fail>
    requires { 1 ≤ every }
{
    let (mem, mut pass) = index_of(alloc, made_messages(alloc, messages)?)?;
    let counting = Counting::new(mem);
    let tally = tally_every(rt, &counting, &mut pass, every);
    let words = counting.into_inner().close(pass);
    if words.is_empty() {
        return Err("no words".into());
    }
    Ok(tally.ok_or("a batch was refused")?)
}

// Of messages that follow one another 96 of 100 words are new in their segment. A new word is written whole: six words of its record, two
// of its cell and the head of its bucket, nine different addresses. So 16 words take 140 writes and more, with the three first words of the
// segments of five or six lanes and the need: 162 on average, and fewer can't be reached with this layout.
#[test]
fn batches_of_messages_that_follow_one_another(rt: HostRuntime) -> Result<(), Fail> {
    let tally = tally_made(&rt, rt.alloc(), 2_000, 1)?;
    assert!(rt; tally.is_within(145, 165));
    Ok(())
}

// Of messages that lie apart more words are there already.
#[test]
fn batches_of_messages_that_lie_apart(rt: HostRuntime) -> Result<(), Fail> {
    let tally = tally_made(&rt, rt.alloc(), 10_500, 7)?;
    assert!(rt; tally.is_within(145, 155));
    Ok(())
}
