//! The word lists of the mailbox that is searched.
ghost use Rattle.std.specs.Prelude.{◌≡◌, ◌≤◌, ℕ, Some};
ghost use Rattle.ring_replay.specs.Outcome.{source_seen};
ghost use Rattle.mail_search.specs.Outcome.{AreListed};

use crate::input::input_of;
use crate::lists::lists_in;
use crate::status::Status;
use mail_gen::laws::{mailbox_of_messages, mailbox_within_limits};
use mail_io::Source;
use mail_words::WordLists;
use std::alloc::Global;
use std::sync::Wait;
use std::thread::Threads;

/// The word lists of the mailbox that the source has, or of one that is made of so many messages, read by so many workers. The bytes are
/// given back.
pub fn searched_lists<S: Source, R: Threads + Wait + Sync>(
    rt: &R,
    alloc: Global,
    generate: Option<u64>,
    workers: u64,
    source: &mut S,
) -> Result<WordLists, Status>
    requires few { (count : ℕ) → generate ≡ Some count → count ≤ 100_000 }
    requires workers { (1 ≤ workers) × (workers ≤ 64) }
    ensures listed { AreListed generate (source_seen S.left S.faults source.old) (source_seen S.left S.faults source.new) result }
    ensures untouched { (count : ℕ) → generate ≡ Some count → source.new ≡ source.old }
{
    mailbox_of_messages();
    mailbox_within_limits();
    let bytes = input_of(alloc, generate, source)?;
    lists_in(rt, alloc, &bytes, workers)
}
