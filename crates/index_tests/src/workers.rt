//! Workers that index a mailbox at once, and the rows that they leave.
ghost use Rattle.std.specs.Prelude.{◌≤◌};

use crate::indexed::{Over, indexed_by};
use crate::made::of_lane_0;
use crate::mailbox::{made_messages, no_messages, three_messages};
use crate::rows::{Row, rows_of};
use mail_workers::{Gate, OpenGate};
use std::alloc::Global;
use std::sync::Wait;
use std::sync::atomic::{AtomicBool, AtomicU64, Ordering};
use std::test::Fail;
use std::thread::{Threads, yield_now};
use tx_heap::MailSense;

/// Whether these are the numbers from 1 on, as many as there are messages.
fn are_all(numbers: &[u64], messages: u64) -> bool {
    for (at, number) in numbers.iter().enumerate() {
        if *number != at as u64 + 1 {
            return false;
        }
    }
    numbers.len() as u64 == messages
}

/// What so many workers leave of a mailbox, and how many segments are in use then. They report each message once, and leave a row for
/// each word of each.
fn rows_by<R: Threads + Wait + Sync>(
    rt: &R,
    alloc: Global,
    over: Over,
    sense: MailSense,
    workers: u64,
) -> Result<(Vec<Row>, Option<u64>), Fail>
    requires workers { (1 ≤ workers) × (workers ≤ 64) }
{
    let plan = sense.plan();
    let postings = sense.lists().postings();
    let (report, words) = indexed_by(rt, alloc, over, sense, workers, &OpenGate)?;
    let rows = rows_of(alloc, &words, plan)?;
    if !are_all(report.drawn.as_slice(), plan.messages) || rows.len() as u64 != postings {
        return Err("not all messages".into());
    }
    Ok((rows, words.first().copied()))
}

/// Whether so many workers, 1 to 64, leave these rows of 500 made messages.
fn leave_made<R: Threads + Wait + Sync>(
    rt: &R,
    alloc: Global,
    over: Over,
    workers: u64,
    one: &[Row],
) -> Result<bool, Fail> {
    if workers < 1 || workers > 64 {
        return Ok(false);
    }
    let (rows, _) = rows_by(rt, alloc, over, made_messages(alloc, 500)?, workers)?;
    Ok(rows.as_slice() == one)
}

#[test]
fn workers_leave_the_rows_of_one(rt: HostRuntime) -> Result<(), Fail> {
    let sense = made_messages(rt.alloc(), 500)?;
    let (one, _) = rows_by(&rt, rt.alloc(), Over::TurnMemory, sense, 1)?;
    for workers in [2, 3, 4, 7, 64] {
        assert!(rt; leave_made(&rt, rt.alloc(), Over::TurnMemory, workers, &one)?);
    }
    Ok(())
}

#[test]
fn workers_over_a_ring_leave_the_rows_of_one(rt: HostRuntime) -> Result<(), Fail> {
    let sense = made_messages(rt.alloc(), 500)?;
    let (one, _) = rows_by(&rt, rt.alloc(), Over::TurnMemory, sense, 1)?;
    for workers in [1, 2, 3, 4, 7, 64] {
        assert!(rt; leave_made(&rt, rt.alloc(), Over::RingMemory, workers, &one)?);
    }
    Ok(())
}

/// Whether so many workers, 1 to 64, leave these rows of a mailbox whose words are all of one lane, more than its segment has room for,
/// and leave the segment for one more.
fn leave_full<R: Threads + Wait + Sync>(
    rt: &R,
    alloc: Global,
    over: Over,
    counts: &[u64],
    workers: u64,
    one: &[Row],
) -> Result<bool, Fail> {
    if workers < 1 || workers > 64 {
        return Ok(false);
    }
    let (rows, used) = rows_by(rt, alloc, over, of_lane_0(alloc, counts)?, workers)?;
    Ok(rows.as_slice() == one && used == Some(9))
}

/// Whether workers leave the full segment of these messages of one lane as one worker does, over both memories.
fn teams_leave_full<R: Threads + Wait + Sync>(
    rt: &R,
    alloc: Global,
    counts: &[u64],
) -> Result<bool, Fail> {
    let (one, used) = rows_by(rt, alloc, Over::TurnMemory, of_lane_0(alloc, counts)?, 1)?;
    for workers in [2, 4, 7] {
        let in_turn_memory = leave_full(rt, alloc, Over::TurnMemory, counts, workers, &one)?;
        let in_ring = leave_full(rt, alloc, Over::RingMemory, counts, workers, &one)?;
        if !in_turn_memory || !in_ring {
            return Ok(false);
        }
    }
    Ok(used == Some(9))
}

// A new word takes 8 words of a segment, which has room for 31,736: for 3,967 words, in whatever order they come.
#[test]
fn workers_leave_a_full_segment(rt: HostRuntime) -> Result<(), Fail> {
    assert!(rt; teams_leave_full(&rt, rt.alloc(), &[3_966, 1, 1])?);
    assert!(rt; teams_leave_full(&rt, rt.alloc(), &[500; 8])?);
    Ok(())
}

#[test]
fn no_messages_at_all(rt: HostRuntime) -> Result<(), Fail> {
    for over in [Over::TurnMemory, Over::RingMemory] {
        let sense = no_messages(rt.alloc())?;
        let (rows, _) = rows_by(&rt, rt.alloc(), over, sense, 3)?;
        assert!(rt; rows.is_empty());
    }
    Ok(())
}

/// Holds each worker's first arrival until two workers have arrived, for so many looks at most.
#[derive(Drop)]
struct MeetingGate {
    arrived: AtomicU64,
    met: AtomicBool,
}

impl Gate for MeetingGate {
    fn arrive(&self, worker: u64, _message: u64) {
        let bit = 1u64 << (worker % 64);
        let before = self.arrived.fetch_or(bit, Ordering::SeqCst);
        if before & bit != 0 {
            return;
        }
        for _ in 0..50_000_000 {
            if self.arrived.load(Ordering::SeqCst).count_ones() >= 2 {
                self.met.store(true, Ordering::SeqCst);
                return;
            }
            yield_now();
        }
    }
}

/// Whether two workers were at the gate at once, and left a row for each word of the three messages.
fn meet<R: Threads + Wait + Sync>(rt: &R, alloc: Global, over: Over) -> Result<bool, Fail> {
    let gate = MeetingGate {
        arrived: AtomicU64::new(0),
        met: AtomicBool::new(false),
    };
    let sense = three_messages(alloc)?;
    let plan = sense.plan();
    let (report, words) = indexed_by(rt, alloc, over, sense, 2, &gate)?;
    let rows = rows_of(alloc, &words, plan)?;
    let whole = are_all(report.drawn.as_slice(), 3) && rows.len() == 10;
    Ok(whole && gate.met.load(Ordering::SeqCst))
}

// No clause speaks of time: `run_all` with one thread for all workers, a plain loop over them, has the same contract and is proved. This
// test fails then, since the first worker draws all messages before the second one comes to the gate.
#[test]
fn two_workers_meet(rt: HostRuntime) -> Result<(), Fail> {
    assert!(rt; meet(&rt, rt.alloc(), Over::TurnMemory)?);
    assert!(rt; meet(&rt, rt.alloc(), Over::RingMemory)?);
    Ok(())
}
