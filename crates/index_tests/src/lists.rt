//! Word lists that several workers read, and lists that are put behind others.
ghost use Rattle.std.specs.Prelude.{◌<◌, ◌^◌, length};
ghost use Rattle.std.specs.List.{All};
ghost use Rattle.mbox_cut.specs.Spans.{LiesIn};

use crate::mailbox::{MAILBOX, SPANS};
use mail_gen::make_mbox;
use mail_words::{ListsError, WordLists, lists_of};
use mail_workers::lists_with;
use mbox_cut::{Span, cut};
use std::alloc::Global;
use std::sync::Wait;
use std::test::Fail;
use std::thread::Threads;

/// As many workers as are tried.
const TEAMS: [u64; 6] = [1, 2, 3, 4, 7, 64];

fn are_same(lists: &WordLists, others: &WordLists) -> bool {
    if lists.messages() != others.messages() {
        return false;
    }
    for index in 0..lists.messages() {
        if lists.list(index + 1) != others.list(index + 1) {
            return false;
        }
    }
    true
}

/// Whether so many workers, 1 to 64, read what one caller reads.
fn read_the_same<R: Threads + Wait + Sync>(
    rt: &R,
    alloc: Global,
    bytes: &[u8],
    spans: &[Span],
    limit: u64,
    workers: u64,
) -> bool
    requires spans { All (LiesIn (length bytes.now)) spans.now }
    requires few { length spans.now < 2 ^ 32 }
    requires limit { limit < 2 ^ 32 }
{
    if workers < 1 || workers > 64 {
        return false;
    }
    let one = lists_of(alloc, bytes, spans, limit);
    let several = lists_with(rt, alloc, bytes, spans, limit, workers);
    match (one, several) {
        (Ok(lists), Ok(others)) => are_same(&lists, &others),
        (Err(ListsError::TooMany), Err(ListsError::TooMany)) => true,
        _ => false,
    }
}

/// Whether so many workers, 1 to 64, read ten words of three messages, where ten are allowed, and are refused where nine are.
fn read_three<R: Threads + Wait + Sync>(rt: &R, alloc: Global, workers: u64) -> bool {
    if workers < 1 || workers > 64 {
        return false;
    }
    let nine = lists_with(rt, alloc, MAILBOX, &SPANS, 9, workers);
    let ten = lists_with(rt, alloc, MAILBOX, &SPANS, 10, workers);
    match (nine, ten) {
        (Err(ListsError::TooMany), Ok(lists)) => { lists.messages() == 3 && lists.postings() == 10 }
        _ => false,
    }
}

#[test]
fn workers_read_three_messages(rt: HostRuntime) {
    for workers in TEAMS {
        assert!(rt; read_three(&rt, rt.alloc(), workers));
        assert!(rt; read_the_same(&rt, rt.alloc(), MAILBOX, &SPANS, 10, workers));
        assert!(rt; read_the_same(&rt, rt.alloc(), MAILBOX, &[], 0, workers));
    }
}

#[test]
fn workers_read_made_messages(rt: HostRuntime) -> Result<(), Fail> {
    let bytes = make_mbox(rt.alloc(), 100)?;
    let spans = cut(rt.alloc(), &bytes, 100)?;
    assert_eq!(rt; spans.len(), 100);
    for workers in TEAMS {
        assert!(rt; read_the_same(&rt, rt.alloc(), &bytes, &spans, 5_100, workers));
        assert!(rt; read_the_same(&rt, rt.alloc(), &bytes, &spans, 5_099, workers));
    }
    Ok(())
}

#[test]
fn lists_behind_others(rt: HostRuntime) -> Result<(), Fail> {
    let all = lists_of(rt.alloc(), MAILBOX, &SPANS, 10)?;
    let mut lists = lists_of(rt.alloc(), MAILBOX, &SPANS[..1], 10)?;
    let more = lists_of(rt.alloc(), MAILBOX, &SPANS[1..], 10)?;
    assert!(rt; lists.append(more).is_ok());
    assert!(rt; are_same(&lists, &all));
    Ok(())
}
