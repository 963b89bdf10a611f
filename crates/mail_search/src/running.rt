//! The top call.
ghost use Rattle.std.specs.Prelude.{◌≡◌, ◌≤◌, ℕ, Some, true, map, string_bytes};
ghost use Rattle.mail_answers.specs.Sending.{sink_seen};
ghost use Rattle.ring_replay.specs.Outcome.{source_seen};
ghost use Rattle.mail_search.specs.Notes.{IsNoted};
ghost use Rattle.mail_search.specs.Outcome.{CanIndex, HasAnswered, HasEnded, MakesMailbox};
ghost use Rattle.mail_search.specs.Replays.{HasReplayed};
ghost use Rattle.mail_search.specs.Statuses.{IsStatus, ending, handed_back, number_of, refuses_line};

use crate::asked::{Asked, Task, task_of};
use crate::indexed::answer_lists;
use crate::outcome::{Outcome, outcome_of};
use crate::searched::searched_lists;
use crate::status::Status;
use mail_io::{Sink, Source};
use mail_workers::Gate;
use ring_replay::replay_script;
use ring_words::Closed;
use std::alloc::Global;
use std::sync::Wait;
use std::thread::Threads;
use tx_heap::MailSense;

/// Answers of which messages of a mailbox each query on the command line holds. The mailbox is all that the source has, or is made of as
/// many messages as the command line says. Its words are indexed by transactions in a memory on a ring of commits, and the answers are
/// read from that memory. The gate is told of each message that a worker has drawn.
///
/// Or replays the script that the source has, where the command line asks for that, and writes its trace.
pub fn run<S: Source, K: Sink, E: Sink, G: Gate + Sync, R: Threads + Wait + Sync>(
    rt: &R,
    alloc: Global,
    words: &[String],
    source: &mut S,
    sink: &mut K,
    notes: &mut E,
    gate: &G,
) -> Outcome
    ensures { IsStatus result.status (λ status. record {
      ended : HasEnded K.offered (map string_bytes words.now) (source_seen S.left S.faults source.old) (source_seen S.left S.faults source.new)
          (sink_seen K.held K.faults K.wants sink.old) (sink_seen K.held K.faults K.wants sink.new) result.closed status;
      unread : refuses_line status ≡ true → source.new ≡ source.old;
      untouched : MakesMailbox (map string_bytes words.now) → source.new ≡ source.old;
      noted : IsNoted E.offered (sink_seen E.held E.faults E.wants notes.old) (sink_seen E.held E.faults E.wants notes.new) status;
    }) }
{
    outcome_of(notes, answer(rt, alloc, words, source, sink, gate))
}

// Does what the words ask for.
fn answer<S: Source, K: Sink, G: Gate + Sync, R: Threads + Wait + Sync>(
    rt: &R,
    alloc: Global,
    words: &[String],
    source: &mut S,
    sink: &mut K,
    gate: &G,
) -> Result<Option<Closed<MailSense>>, Status>
    ensures ended { HasEnded K.offered (map string_bytes words.now) (source_seen S.left S.faults source.old) (source_seen S.left S.faults source.new)
        (sink_seen K.held K.faults K.wants sink.old) (sink_seen K.held K.faults K.wants sink.new) (handed_back result) (ending result) }
    ensures unread { refuses_line (ending result) ≡ true → source.new ≡ source.old }
    ensures untouched { MakesMailbox (map string_bytes words.now) → source.new ≡ source.old }
{
    match task_of(alloc, words)? {
        Task::Replay => replayed(alloc, source, sink),
        Task::Answer(asked) => Ok(Some(answered(rt, alloc, &asked, source, sink, gate)?)),
    }
}

// Replays the script that the source has, which leaves no ring.
fn replayed<S: Source, K: Sink>(
    alloc: Global,
    source: &mut S,
    sink: &mut K,
) -> Result<Option<Closed<MailSense>>, Status>
    ensures { HasReplayed K.offered (source_seen S.left S.faults source.old) (source_seen S.left S.faults source.new)
        (sink_seen K.held K.faults K.wants sink.old) (sink_seen K.held K.faults K.wants sink.new) (handed_back result) (ending result) }
{
    replay_script(alloc, source, sink)?;
    Ok(None)
}

// Lists the words of what is searched, indexes them and answers, until one of these fails. What is no longer needed is given back before the
// next is made.
fn answered<S: Source, K: Sink, G: Gate + Sync, R: Threads + Wait + Sync>(
    rt: &R,
    alloc: Global,
    asked: &Asked,
    source: &mut S,
    sink: &mut K,
    gate: &G,
) -> Result<Closed<MailSense>, Status>
    requires few { (count : ℕ) → asked.now.generate ≡ Some count → count ≤ 100_000 }
    requires can { CanIndex asked.now.workers asked.now.ring asked.now.bits }
    ensures answered { HasAnswered K.offered asked.now.generate asked.now.report asked.now.queries.items
        (source_seen S.left S.faults source.old) (source_seen S.left S.faults source.new)
        (sink_seen K.held K.faults K.wants sink.old) (sink_seen K.held K.faults K.wants sink.new) result }
    ensures untouched { (count : ℕ) → asked.now.generate ≡ Some count → source.new ≡ source.old }
{
    let lists = searched_lists(rt, alloc, asked.generate, asked.workers, source)?;
    answer_lists(rt, alloc, lists, asked, sink, gate)
}
