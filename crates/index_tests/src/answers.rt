//! Answers that are read from the segments of an index.
ghost use Rattle.std.specs.Prelude.{◌≡◌};
ghost use Rattle.tx_model.specs.declared.pass.PassState.TheVariants.{Idle};
ghost use Rattle.tx_model.specs.Pass.{IsWhole};
ghost use Rattle.mail_answers.specs.Complete.{IsComplete, last_index};

use crate::counting::Counting;
use crate::indexed::in_turn_memory;
use crate::mailbox::{three_lists, three_messages};
use mail_answers::answer_queries;
use mail_index::{close_index, index_lists};
use mail_io::MemSink;
use mail_query::{Query, parse};
use mail_workers::OpenGate;
use std::alloc::Global;
use std::process::Abort;
use std::sync::Wait;
use std::test::Fail;
use std::thread::Threads;
use tx_heap::MailSense;
use tx_model::TxMemory;

fn two_queries(alloc: Global) -> Result<Vec<Query>, Fail> {
    let mut queries = Vec::new(alloc);
    queries.push(parse(alloc, b"ring").map_err(|_| "no query")?)?;
    queries.push(parse(alloc, b"hello").map_err(|_| "no query")?)?;
    Ok(queries)
}

/// Writes the answers of the queries, and says how many words inside regions were read for it, where all were written.
fn answered<M: TxMemory<MailSense>, R: Wait + Sync>(
    rt: &R,
    alloc: Global,
    mem: M,
    pass: &mut M::Pass,
    queries: &[Query],
    sink: &mut MemSink,
) -> (M, Option<u64>)
    requires of { M.of mem pass.old }
    requires idle { (M.view pass.old).state ≡ Idle }
    requires whole { IsWhole (M.view pass.old) }
    requires complete { IsComplete (M.made mem).sense (last_index (M.made mem) (M.view pass.old).history) }
    ensures mem { result.0 ≡ mem }
    ensures of { M.of mem pass.new }
    ensures idle { (M.view pass.new).state ≡ Idle }
    ensures whole { IsWhole (M.view pass.new) }
    ensures no_commit { (M.view pass.new).history ≡ (M.view pass.old).history }
{
    let counting = Counting::new(mem);
    let sent = answer_queries(rt, alloc, &counting, pass, queries, sink);
    let in_regions = counting.counts().in_regions;
    let reads = if sent.is_ok() { Some(in_regions) } else { None };
    (counting.into_inner(), reads)
}

/// Answers the two queries from three messages that two workers bring into the memory that runs one attempt at a time, and says how many
/// words inside regions were read for it.
fn answered_in_turn_memory<R: Abort + Threads + Wait + Sync>(
    rt: &R,
    alloc: Global,
    sink: &mut MemSink,
) -> Result<Option<u64>, Fail> {
    let queries = two_queries(alloc)?;
    let sense = three_messages(alloc)?;
    let (mem, mut pass, report) = in_turn_memory(rt, alloc, sense, 2, &OpenGate)?;
    let (mem, reads) = answered(rt, alloc, mem, &mut pass, &queries, sink);
    let words = mem.close(pass);
    assert_eq!(rt; report.drawn.as_slice().len(), 3);
    assert_eq!(rt; words.get(16).copied(), Some(0));
    Ok(reads)
}

/// The same over a ring, whose three commits are the messages'.
fn answered_over_ring<R: Abort + Threads + Wait + Sync>(
    rt: &R,
    alloc: Global,
    sink: &mut MemSink,
) -> Result<Option<u64>, Fail> {
    let queries = two_queries(alloc)?;
    let lists = three_lists(alloc)?;
    if lists.messages() > 1_048_576 || lists.postings() > 8_388_608 {
        return Err("too many".into());
    }
    let (mem, mut pass) = index_lists(rt, alloc, lists, 1_024, 16, 2, &OpenGate)?;
    let (mem, reads) = answered(rt, alloc, mem, &mut pass, &queries, sink);
    let closed = close_index(mem, pass);
    assert_eq!(rt; closed.commits(), 3);
    Ok(reads)
}

/// The cells of the two words. Answers from the lists of the sense read none of them: tried by hand, both tests fail then.
const CELLS: u64 = 4;

/// The answers of the two queries.
const ANSWERS: &[u8] = b"2: 1 3\n2: 1 2\n";

/// They were written, and the cells of their words read for it.
fn are_answers(rt: &impl Abort, reads: Option<u64>, sink: &MemSink) {
    assert!(rt; reads >= Some(CELLS));
    assert_eq!(rt; sink.bytes(), ANSWERS);
}

#[test]
fn answers_are_read_from_the_segments(rt: HostRuntime) -> Result<(), Fail> {
    let mut sink = MemSink::new(rt.alloc(), 200, Vec::new(rt.alloc()));
    let reads = answered_in_turn_memory(&rt, rt.alloc(), &mut sink)?;
    are_answers(&rt, reads, &sink);
    Ok(())
}

#[test]
fn answers_over_a_ring_are_read_from_the_segments(rt: HostRuntime) -> Result<(), Fail> {
    let mut sink = MemSink::new(rt.alloc(), 200, Vec::new(rt.alloc()));
    let reads = answered_over_ring(&rt, rt.alloc(), &mut sink)?;
    are_answers(&rt, reads, &sink);
    Ok(())
}
