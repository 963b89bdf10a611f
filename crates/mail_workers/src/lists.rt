//! The word lists of several messages, read by several workers.
ghost use Rattle.std.specs.Prelude.{◌≡◌, ◌<◌, ◌≤◌, ◌^◌, ◌+◌, ◌++◌, length, IfOk};
ghost use Rattle.std.specs.List.{All};
ghost use Rattle.std.specs.Thread.{IsSync};
ghost use Rattle.mail_words.specs.Lists.{word_lists, postings_in};
ghost use Rattle.mail_words.specs.declared.lists.ListsError.{ListsError};
ghost use Rattle.mbox_cut.specs.Exactly.{ComesExactly};
ghost use Rattle.mbox_cut.specs.Spans.{LiesIn};

use mail_words::{ListsError, WordLists, lists_of};
use mbox_cut::Span;
use std::alloc::Global;
use std::sync::Wait;
use std::thread::{Threads, join};

/// The word list of each span, read by so many workers at once.
///
/// It answers what `lists_of` answers, whatever the number of workers.
pub fn lists_with<R: Threads + Wait + Sync>(
    rt: &R,
    alloc: Global,
    bytes: &[u8],
    spans: &[Span],
    limit: u64,
    workers: u64,
) -> Result<WordLists, ListsError>
    requires spans { All (LiesIn (length bytes.now)) spans.now }
    requires few { length spans.now < 2 ^ 32 }
    requires limit { limit < 2 ^ 32 }
    requires workers { (1 ≤ workers) × (workers ≤ 64) }
    ensures lists { IfOk result (λ lists. lists ≡ word_lists bytes.now spans.now) }
    ensures exactly_too_many { ComesExactly result ListsError.TooMany (limit < postings_in (word_lists bytes.now spans.now)) }
{
    if workers == 1 || spans.len() < 2 {
        return lists_of(alloc, bytes, spans, limit);
    }
    let half = workers / 2;
    let (front, back) = spans.split_at(middle_of(spans, half, workers));
    let (first, second) = join(
        rt,
        || -> Result<WordLists, ListsError>
            requires { IsSync R.row × All (LiesIn (length bytes.now)) front.now × (length front.now < 2 ^ 32)
                × (limit < 2 ^ 32) × (1 ≤ half) × (half ≤ 64) }
            ensures lists { IfOk result (λ lists. lists ≡ word_lists bytes.entry.now front.entry.now) }
            ensures exactly_too_many { ComesExactly result ListsError.TooMany (limit < postings_in (word_lists bytes.entry.now front.entry.now)) }
        { lists_with(rt, alloc, bytes, front, limit, half) },
        || -> Result<WordLists, ListsError>
            requires { IsSync R.row × All (LiesIn (length bytes.now)) back.now × (length back.now < 2 ^ 32)
                × (limit < 2 ^ 32) × (half < workers) × (workers ≤ 64) }
            ensures lists { IfOk result (λ lists. lists ≡ word_lists bytes.entry.now back.entry.now) }
            ensures exactly_too_many { ComesExactly result ListsError.TooMany (limit < postings_in (word_lists bytes.entry.now back.entry.now)) }
        { lists_with(rt, alloc, bytes, back, limit, workers - half) },
    );
    together(first?, second?, limit)
}

// Where the spans are parted so that the first part is for so many of the workers: where as large a part of their bytes ends.
fn middle_of(spans: &[Span], part: u64, workers: u64) -> usize
    requires { 1 ≤ workers }
    ensures { result ≤ length spans.now }
{
    let (Some(first), Some(last)) = (spans.first(), spans.last()) else {
        return 0;
    };
    let share = last.to.saturating_sub(first.from) / workers;
    let middle = first.from.saturating_add(share.saturating_mul(part));
    spans.partition_point(|span| span.from < middle)
}

// The lists of both, one after the other.
fn together(mut lists: WordLists, more: WordLists, limit: u64) -> Result<WordLists, ListsError>
    requires few { length lists + length more < 2 ^ 32 }
    requires limit { limit < 2 ^ 32 }
    requires within { postings_in lists ≤ limit }
    ensures lists { IfOk result (λ all. all ≡ lists ++ more) }
    ensures exactly_too_many { ComesExactly result ListsError.TooMany (limit < postings_in lists + postings_in more) }
{
    if more.postings() > limit - lists.postings() {
        return Err(ListsError::TooMany);
    }
    match lists.append(more) {
        Ok(()) => Ok(lists),
        Err(_more) => Err(ListsError::Memory),
    }
}
