//! Batches that come into an index, and the messages of its words.
ghost use Rattle.std.specs.Prelude.{◌≡◌};
ghost use Rattle.tx_model.specs.declared.pass.PassState.TheVariants.{Idle};

use crate::asked::{Call, batch, words_after};
use crate::made::{Made, next_of_lane_0};
use crate::mailbox::three_messages;
use mail_words::{Key, key_of};
use std::alloc::Global;
use std::sync::Wait;
use std::test::Fail;
use tx_heap::MailSense;
use tx_model::TxMemory;
use tx_postings::{AddStop, Added, Leaving, ListStop, add_batch, leave_full, list};

/// Adds a batch of a message, where the index has that message.
pub fn added<M: TxMemory<MailSense>, R: Wait + Sync>(
    rt: &R,
    mem: &M,
    pass: &mut M::Pass,
    message: u64,
) -> Option<Result<Added, AddStop>>
    requires of { M.of mem.now pass.old }
    requires idle { (M.view pass.old).state ≡ Idle }
    ensures of { M.of mem.now pass.new }
    ensures idle { (M.view pass.new).state ≡ Idle }
    ensures share { (M.view pass.new).share ≡ (M.view pass.old).share }
{
    if message < 1 || message > mem.sense().plan().messages {
        return None;
    }
    Some(add_batch(rt, mem, pass, message))
}

/// Adds batches of a message until none of its words is to come.
pub fn added_whole<M: TxMemory<MailSense>, R: Wait + Sync>(
    rt: &R,
    mem: &M,
    pass: &mut M::Pass,
    message: u64,
) -> Option<Added>
    requires of { M.of mem.now pass.old }
    requires idle { (M.view pass.old).state ≡ Idle }
    ensures of { M.of mem.now pass.new }
    ensures idle { (M.view pass.new).state ≡ Idle }
    ensures share { (M.view pass.new).share ≡ (M.view pass.old).share }
{
    for _ in 0..1_000 {
        match added(rt, mem, pass, message) {
            Some(Ok(answer)) if answer.left > 0 => {}
            Some(Ok(answer)) => return Some(answer),
            _ => return None,
        }
    }
    None
}

/// The messages of a key, in an attempt of its own.
pub fn listed<M: TxMemory<MailSense>, R: Wait + Sync>(
    rt: &R,
    alloc: Global,
    mem: &M,
    pass: &mut M::Pass,
    key: &Key,
) -> Result<Vec<u64>, ListStop>
    requires of { M.of mem.now pass.old }
    requires idle { (M.view pass.old).state ≡ Idle }
    ensures of { M.of mem.now pass.new }
    ensures idle { (M.view pass.new).state ≡ Idle }
    ensures share { (M.view pass.new).share ≡ (M.view pass.old).share }
{
    mem.begin(rt, pass);
    let mut messages = Vec::new(alloc);
    match list(mem, pass, key, &mut messages) {
        Ok(()) => {
            mem.give_up(pass);
            Ok(messages)
        }
        Err(ListStop::Stopped { stop }) => Err(ListStop::Stopped { stop }),
        Err(ListStop::Sealed { segment }) => {
            mem.give_up(pass);
            Err(ListStop::Sealed { segment })
        }
        Err(ListStop::Memory) => {
            mem.give_up(pass);
            Err(ListStop::Memory)
        }
    }
}

/// Whether these are the messages of a word.
pub fn lists<M: TxMemory<MailSense>, R: Wait + Sync>(
    rt: &R,
    alloc: Global,
    mem: &M,
    pass: &mut M::Pass,
    word: &[u8],
    messages: &[u64],
) -> bool
    requires of { M.of mem.now pass.old }
    requires idle { (M.view pass.old).state ≡ Idle }
    ensures of { M.of mem.now pass.new }
    ensures idle { (M.view pass.new).state ≡ Idle }
    ensures share { (M.view pass.new).share ≡ (M.view pass.old).share }
{
    let Some(key) = key_of(word) else {
        return false;
    };
    match listed(rt, alloc, mem, pass, &key) {
        Ok(found) => found.as_slice() == messages,
        Err(_) => false,
    }
}

/// Leaves a segment of a lane, where the index has both and the memory stops nothing.
pub fn left<M: TxMemory<MailSense>, R: Wait + Sync>(
    rt: &R,
    mem: &M,
    pass: &mut M::Pass,
    lane: u64,
    segment: u64,
) -> Option<Leaving>
    requires of { M.of mem.now pass.old }
    requires idle { (M.view pass.old).state ≡ Idle }
    ensures of { M.of mem.now pass.new }
    ensures idle { (M.view pass.new).state ≡ Idle }
    ensures share { (M.view pass.new).share ≡ (M.view pass.old).share }
{
    if lane >= 8 || segment >= mem.sense().plan().segments {
        return None;
    }
    mem.begin(rt, pass);
    let Ok(leaving) = leave_full(mem, pass, lane, segment) else {
        return None;
    };
    let Ok(_) = mem.commit(rt, pass) else {
        return None;
    };
    Some(leaving)
}

#[test]
fn batches_of_three_messages(rt: HostRuntime) -> Result<(), Fail> {
    let sense = three_messages(rt.alloc())?;
    let calls = [
        batch(1, 0, 1, true),
        batch(1, 0, 1, false),
        batch(3, 0, 2, true),
        Call::Add {
            message: 4,
            answer: None,
        },
    ];
    let words = words_after(&rt, rt.alloc(), sense, &calls)?;
    assert_eq!(rt; words.get(16).copied(), Some(0));
    assert_eq!(rt; words.get(17).copied(), Some(4));
    assert_eq!(rt; words.get(18).copied(), Some(0));
    Ok(())
}

/// The messages of a word are these, the one added last first.
fn listing<'a>(word: &'a [u8], messages: &'a [u64]) -> Call<'a> {
    Call::List { word, messages }
}

/// A segment of lane 0 is left like this.
fn leave<'a>(segment: u64, leaving: Leaving) -> Call<'a> {
    Call::Leave {
        lane: 0,
        segment,
        leaving,
    }
}

#[test]
fn the_messages_of_a_word(rt: HostRuntime) -> Result<(), Fail> {
    let sense = three_messages(rt.alloc())?;
    let calls = [
        leave(0, Leaving::Roomy { free: 31_736 }),
        listing(b"ring", &[]),
        batch(1, 0, 1, true),
        listing(b"ring", &[1]),
        batch(3, 0, 2, true),
        listing(b"ring", &[3, 1]),
    ];
    let words = words_after(&rt, rt.alloc(), sense, &calls)?;
    assert_eq!(rt; words.len(), 262_179);
    Ok(())
}

#[test]
fn forty_words_take_three_batches(rt: HostRuntime) -> Result<(), Fail> {
    let mut made = Made::new(rt.alloc());
    made.message()?;
    made.words(rt.alloc(), 1, 40)?;
    let calls = [
        batch(1, 24, 1, true),
        batch(1, 8, 2, true),
        batch(1, 0, 3, true),
        batch(1, 0, 3, false),
    ];
    let words = words_after(&rt, rt.alloc(), made.sense(rt.alloc())?, &calls)?;
    assert_eq!(rt; words.get(16).copied(), Some(0));
    Ok(())
}

#[test]
fn the_message_added_last_comes_first(rt: HostRuntime) -> Result<(), Fail> {
    let mut made = Made::new(rt.alloc());
    for number in 1..4 {
        made.message()?;
        made.words(rt.alloc(), 0, number)?;
    }
    let calls = [
        Call::AddWhole { message: 2 },
        Call::AddWhole { message: 3 },
        Call::AddWhole { message: 1 },
        listing(b"w0", &[1, 3, 2]),
    ];
    let words = words_after(&rt, rt.alloc(), made.sense(rt.alloc())?, &calls)?;
    assert_eq!(rt; words.get(16).copied(), Some(0));
    Ok(())
}

/// Message 1 has 3,966 words of lane 0, message 2 one of them, and message 3 another one.
fn full_lane(alloc: Global) -> Result<(MailSense, u64), Fail> {
    let mut made = Made::new(alloc);
    let mut last = 0u64;
    made.message()?;
    for _ in 0..3_966 {
        last = next_of_lane_0(alloc, last.saturating_add(1))?;
        made.words(alloc, last, 1)?;
    }
    made.message()?;
    made.words(alloc, last, 1)?;
    made.message()?;
    made.words(alloc, next_of_lane_0(alloc, last.saturating_add(1))?, 1)?;
    Ok((made.sense(alloc)?, last))
}

#[test]
fn six_free_words_are_too_few(rt: HostRuntime) -> Result<(), Fail> {
    let (sense, _) = full_lane(rt.alloc())?;
    let room = AddStop::Room {
        lane: 0,
        segment: 0,
        free: 6,
        needs: 8,
    };
    let calls = [
        Call::AddWhole { message: 1 },
        batch(2, 0, 249, true),
        Call::Add {
            message: 3,
            answer: Some(Err(room)),
        },
    ];
    let words = words_after(&rt, rt.alloc(), sense, &calls)?;
    assert_eq!(rt; words.get(18).copied(), Some(1));
    Ok(())
}

#[test]
fn a_full_segment_is_left_for_a_fresh_one(rt: HostRuntime) -> Result<(), Fail> {
    let (sense, last) = full_lane(rt.alloc())?;
    let word = format!(in rt.alloc(); "w{last}")?;
    let calls = [
        Call::AddWhole { message: 1 },
        batch(3, 0, 249, true),
        leave(0, Leaving::Fresh { segment: 8 }),
        leave(0, Leaving::Moved { current: 8 }),
        leave(8, Leaving::Roomy { free: 31_736 }),
        batch(2, 0, 251, true),
        listing(word.as_bytes(), &[2, 1]),
    ];
    let words = words_after(&rt, rt.alloc(), sense, &calls)?;
    assert_eq!(rt; words.get(1).copied(), Some(9));
    Ok(())
}
