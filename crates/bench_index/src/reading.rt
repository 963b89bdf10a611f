//! The words of a made mailbox.
ghost use Rattle.std.specs.Prelude.{◌≤◌};

use mail_gen::{MOST_MESSAGES, make_mbox};
use mail_words::lists_of;
use mail_workers::lists_with;
use mbox_cut::cut;
use std::alloc::Global;
use std::sync::Wait;
use std::thread::Threads;
use tx_heap::MailSense;

/// The most messages and words that an index has.
const MOST_MAIL: u64 = 1_048_576;

const MOST_WORDS: u64 = 8_388_608;

/// The sense of an index of so many made messages, whose words so many workers read. Where there are none, it is of no messages. None where
/// there is want of memory.
pub fn read<R: Threads + Wait + Sync>(
    rt: &R,
    alloc: Global,
    count: u64,
    workers: u64,
) -> Option<MailSense>
    requires workers { workers ≤ 64 }
{
    let bytes = make_mbox(alloc, count).ok()?;
    let spans = cut(alloc, &bytes, MOST_MESSAGES).ok()?;
    if spans.len() as u64 > MOST_MESSAGES {
        return None;
    }
    let lists = if workers == 0 {
        lists_of(alloc, &bytes, &[], 0).ok()?
    } else {
        lists_with(rt, alloc, &bytes, &spans, MOST_WORDS, workers).ok()?
    };
    if lists.messages() > MOST_MAIL || lists.postings() > MOST_WORDS {
        return None;
    }
    Some(MailSense::of(lists))
}
