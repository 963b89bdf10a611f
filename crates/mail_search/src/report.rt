//! The report on what the memory committed.
ghost use Rattle.std.specs.Prelude.{◌≡◌, [], ◌∷◌, IfOk, string_bytes};
ghost use Rattle.mail_answers.specs.Sending.{sink_seen};
ghost use Rattle.mail_answers.specs.Sent.{AreSent};
ghost use Rattle.mail_search.specs.Reports.{report_line};

use mail_io::{Sink, WriteError, write_all};
use ring_words::Closed;
use std::alloc::{AllocError, Global};
use tx_heap::MailSense;

/// Writes how many commits there were, and how many of them sealed a segment, as one piece.
pub fn write_report<K: Sink>(
    alloc: Global,
    closed: &Closed<MailSense>,
    sink: &mut K,
) -> Result<(), WriteError>
    ensures { AreSent K.offered (sink_seen K.held K.faults K.wants sink.old) (sink_seen K.held K.faults K.wants sink.new)
        (report_line closed.now ∷ []) result }
{
    let Ok(line) = report_line(alloc, closed) else {
        return Err(WriteError::Memory { sent: 0 });
    };
    write_all(sink, line.as_bytes())
}

fn report_line(alloc: Global, closed: &Closed<MailSense>) -> Result<String, AllocError>
    ensures { IfOk result (λ line. string_bytes line ≡ report_line closed.now) }
{
    let commits = closed.commits();
    let seals = closed.seals();
    format!(in alloc; "commits {commits} seals {seals}\n")
}
