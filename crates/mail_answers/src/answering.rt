//! The answer lines of queries.
ghost use Rattle.std.specs.Prelude.{◌≡◌, ◌+◌, ◌<◌, ◌^◌};
ghost use Rattle.tx_model.specs.declared.pass.PassState.TheVariants.{Idle};
ghost use Rattle.tx_model.specs.Pass.{IsWhole};
ghost use Rattle.mail_answers.specs.Complete.{IsComplete, last_index};
ghost use Rattle.mail_answers.specs.Hits.{lines_in};
ghost use Rattle.mail_answers.specs.Sending.{sink_seen};
ghost use Rattle.mail_answers.specs.Sent.{AreSent, sent_of, sent_after};

use crate::asking::line_of;
use mail_io::{Sink, WriteError, write_all};
use mail_query::Query;
use std::alloc::Global;
use std::sync::Wait;
use tx_heap::MailSense;
use tx_model::{Memory, TxMemory};

/// Writes the answer line of each query, in order, each in one piece. The hits of a query are the messages of whose words in the lists of
/// the memory's sense it holds, and they are read from the memory: each query in an attempt that writes nothing.
///
/// No other pass lives, all words are in the index, and no segment is sealed or packed. After every answer the pass is whole and idle,
/// and the history has no further commit.
///
/// At a refusal `sent` bytes of the lines were sent.
pub fn answer_queries<M: TxMemory<MailSense>, K: Sink, R: Wait + Sync>(
    rt: &R,
    alloc: Global,
    mem: &M,
    pass: &mut M::Pass,
    queries: &[Query],
    sink: &mut K,
) -> Result<(), WriteError>
    requires of { M.of mem.now pass.old }
    requires idle { (M.view pass.old).state ≡ Idle }
    requires whole { IsWhole (M.view pass.old) }
    requires complete { IsComplete (M.made mem.now).sense (last_index (M.made mem.now) (M.view pass.old).history) }
    ensures of { M.of mem.now pass.new }
    ensures idle { (M.view pass.new).state ≡ Idle }
    ensures whole { IsWhole (M.view pass.new) }
    ensures no_commit { (M.view pass.new).history ≡ (M.view pass.old).history }
    ensures sent { AreSent K.offered (sink_seen K.held K.faults K.wants sink.old) (sink_seen K.held K.faults K.wants sink.new)
        (lines_in (M.made mem.now).sense queries.now) result }
{
    let mut sent = 0u64;
    for query in queries {
        let line = match line_of(rt, alloc, mem, pass, query) {
            Ok(line) => line,
            Err(Memory) => return Err(WriteError::Memory { sent }),
        };
        let Some(then) = sent.checked_add(line.len() as u64) else {
            // More bytes than can be counted.
            return Err(WriteError::Memory { sent });
        };
        match write_all(sink, &line) {
            Ok(()) => sent = then,
            Err(error) => return Err(counted(sent, error)),
        }
    }
    Ok(())
}

// A refusal behind so many bytes that were sent.
fn counted(sent: u64, error: WriteError) -> WriteError
    requires { sent + sent_of error < 2 ^ 64 }
    ensures { result ≡ sent_after sent error }
{
    match error {
        WriteError::Failed { sent: more } => WriteError::Failed { sent: sent + more },
        WriteError::Memory { sent: more } => WriteError::Memory { sent: sent + more },
    }
}
