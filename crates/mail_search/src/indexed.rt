//! The answers from an index in a transaction memory on a ring.
ghost use Rattle.std.specs.Prelude.{◌≤◌, ◌++◌, length};
ghost use Rattle.mail_words.specs.Lists.{postings_in};
ghost use Rattle.mail_answers.specs.Hits.{lines_in};
ghost use Rattle.mail_answers.specs.Sending.{sink_seen};
ghost use Rattle.mail_search.specs.Outcome.{CanIndex, IsReported, IsSent};
ghost use Rattle.mail_search.specs.Reports.{report_of};

use crate::asked::Asked;
use crate::report::write_report;
use crate::status::Status;
use mail_answers::answer_queries;
use mail_index::{close_index, index_lists};
use mail_io::{Sink, WriteError};
use mail_words::WordLists;
use mail_workers::Gate;
use ring_words::Closed;
use std::alloc::Global;
use std::sync::Wait;
use std::thread::Threads;
use tx_heap::MailSense;

/// Indexes the lists, answers the queries from the index, closes it, and reports on it, where a report is asked for.
pub fn answer_lists<K: Sink, G: Gate + Sync, R: Threads + Wait + Sync>(
    rt: &R,
    alloc: Global,
    lists: WordLists,
    asked: &Asked,
    sink: &mut K,
    gate: &G,
) -> Result<Closed<MailSense>, Status>
    requires messages { length lists ≤ 1048576 }
    requires postings { postings_in lists ≤ 8388608 }
    requires can { CanIndex asked.now.workers asked.now.ring asked.now.bits }
    ensures { IsSent K.offered (sink_seen K.held K.faults K.wants sink.old) (sink_seen K.held K.faults K.wants sink.new) lists
        (λ closed. lines_in lists asked.now.queries.items ++ report_of asked.now.report closed) result }
{
    let (mem, mut pass) = index_lists(
        rt,
        alloc,
        lists,
        asked.ring,
        asked.bits / 64,
        asked.workers,
        gate,
    )?;
    let sent = answer_queries(rt, alloc, &mem, &mut pass, &asked.queries, sink);
    let closed = close_index(mem, pass);
    sent?;
    report_on(alloc, closed, asked.report, sink)
}

// Reports on the closed ring, where a report is asked for, and hands it back.
fn report_on<K: Sink>(
    alloc: Global,
    closed: Closed<MailSense>,
    report: bool,
    sink: &mut K,
) -> Result<Closed<MailSense>, Status>
    ensures { IsReported K.offered (sink_seen K.held K.faults K.wants sink.old) (sink_seen K.held K.faults K.wants sink.new) report closed result }
{
    if !report {
        return Ok(closed);
    }
    write_report(alloc, &closed, sink)?;
    Ok(closed)
}
