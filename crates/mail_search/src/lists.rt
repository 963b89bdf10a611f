//! The word lists of a mailbox.
ghost use Rattle.std.specs.Prelude.{◌≤◌};
ghost use Rattle.mail_search.specs.Outcome.{AreLists};

use crate::status::Status;
use mail_words::WordLists;
use mail_workers::lists_with;
use mbox_cut::cut;
use std::alloc::Global;
use std::sync::Wait;
use std::thread::Threads;

/// The most messages of a mailbox.
const MESSAGE_LIMIT: u64 = 1_048_576;

/// The most pairs of a word and a message that has it.
const POSTING_LIMIT: u64 = 8_388_608;

/// The word list of each message of the mailbox in the bytes, read by so many workers.
pub fn lists_in<R: Threads + Wait + Sync>(
    rt: &R,
    alloc: Global,
    bytes: &[u8],
    workers: u64,
) -> Result<WordLists, Status>
    requires workers { (1 ≤ workers) × (workers ≤ 64) }
    ensures { AreLists bytes.now result }
{
    let messages = cut(alloc, bytes, MESSAGE_LIMIT)?;
    Ok(lists_with(rt, alloc, bytes, &messages, POSTING_LIMIT, workers)?)
}
