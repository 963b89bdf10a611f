//! The rows of a mailbox, read through `list` alone after every message.
ghost use Rattle.std.specs.Prelude.{◌≡◌};
ghost use Rattle.tx_model.specs.declared.pass.PassState.TheVariants.{Idle};

use crate::asked::{Call, words_after};
use crate::mailbox::made_messages;
use crate::postings::{added_whole, listed};
use mail_words::{Key, WordLists};
use std::alloc::Global;
use std::sync::Wait;
use std::test::Fail;
use tx_heap::MailSense;
use tx_model::TxMemory;

/// Whether the word list of a message has the key.
fn has(lists: &WordLists, message: u64, key: &Key) -> bool {
    message >= 1 && message <= lists.messages() && lists.list(message).contains(key)
}

/// Whether each number is lower than the one before it.
fn fall(numbers: &[u64]) -> bool {
    numbers
        .iter()
        .zip(numbers.iter().skip(1))
        .all(|(before, then)| then < before)
}

/// Whether these are the messages up to the last one that have the key, the newest first: all of them have it, none comes twice,
/// and the one of whose list the key was taken is among them where it has come.
fn are_those(lists: &WordLists, last: u64, message: u64, key: &Key, messages: &[u64]) -> bool {
    for other in messages {
        if *other > last || !has(lists, *other, key) {
            return false;
        }
    }
    fall(messages) && messages.contains(&message) == (message <= last)
}

/// Whether the words of all messages have the rows of the messages up to the last one, and no other.
fn has_rows<M: TxMemory<MailSense>, R: Wait + Sync>(
    rt: &R,
    alloc: Global,
    mem: &M,
    pass: &mut M::Pass,
    last: u64,
) -> bool
    requires of { M.of mem.now pass.old }
    requires idle { (M.view pass.old).state ≡ Idle }
    ensures of { M.of mem.now pass.new }
    ensures idle { (M.view pass.new).state ≡ Idle }
    ensures share { (M.view pass.new).share ≡ (M.view pass.old).share }
{
    let lists = mem.sense().lists();
    for index in 0..lists.messages() {
        for key in lists.list(index + 1) {
            let Ok(messages) = listed(rt, alloc, mem, pass, key) else {
                return false;
            };
            if !are_those(lists, last, index + 1, key, &messages) {
                return false;
            }
        }
    }
    true
}

/// Adds each message in turn, and looks at all rows after each.
pub fn rows_grow<M: TxMemory<MailSense>, R: Wait + Sync>(
    rt: &R,
    alloc: Global,
    mem: &M,
    pass: &mut M::Pass,
) -> bool
    requires of { M.of mem.now pass.old }
    requires idle { (M.view pass.old).state ≡ Idle }
    ensures of { M.of mem.now pass.new }
    ensures idle { (M.view pass.new).state ≡ Idle }
    ensures share { (M.view pass.new).share ≡ (M.view pass.old).share }
{
    for index in 0..mem.sense().lists().messages() {
        if added_whole(rt, mem, pass, index + 1).is_none() {
            return false;
        }
        if !has_rows(rt, alloc, mem, pass, index + 1) {
            return false;
        }
    }
    true
}

#[test]
fn the_rows_of_each_message_in_turn(rt: HostRuntime) -> Result<(), Fail> {
    let sense = made_messages(rt.alloc(), 200)?;
    let words = words_after(&rt, rt.alloc(), sense, &[Call::GrowRows])?;
    assert_eq!(rt; words.get(16).copied(), Some(0));
    Ok(())
}
