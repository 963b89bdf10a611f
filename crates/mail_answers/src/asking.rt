//! One query, asked in an attempt of its own.
ghost use Rattle.std.specs.Prelude.{◌≡◌, IfOk};
ghost use Rattle.tx_model.specs.declared.pass.PassState.TheVariants.{Idle};
ghost use Rattle.tx_model.specs.Pass.{IsWhole};
ghost use Rattle.tx_heap.specs.Layout.{mail_layout};
ghost use Rattle.tx_heap.specs.Index.{rows_of};
ghost use Rattle.mail_query.specs.Answers.{answer_line};
ghost use Rattle.mail_query.specs.Truth.{keys_in};
ghost use Rattle.mail_answers.specs.Complete.{IsAsBefore, IsComplete, last_index};
ghost use Rattle.mail_answers.specs.Hits.{hits_in};
ghost use Rattle.mail_answers.specs.Lists.{HasKeys, HasLists};

use crate::attempt::{Asking, Unread};
use crate::keys::keys_of;
use crate::lists::{ListsStop, ReadLists};
use mail_query::{EvalStop, Query, answer_line, evaluate};
use std::alloc::Global;
use std::sync::Wait;
use tx_heap::MailSense;
use tx_model::laws::{made_well, pass_knows};
use tx_model::{BodyStop, Memory, TxMemory, atomically};

/// The answer line of a query.
pub(crate) fn line_of<M: TxMemory<MailSense>, R: Wait + Sync>(
    rt: &R,
    alloc: Global,
    mem: &M,
    pass: &mut M::Pass,
    query: &Query,
) -> Result<Vec<u8>, Memory>
    requires of { M.of mem.now pass.old }
    requires idle { (M.view pass.old).state ≡ Idle }
    requires whole { IsWhole (M.view pass.old) }
    requires complete { IsComplete (M.made mem.now).sense (last_index (M.made mem.now) (M.view pass.old).history) }
    ensures of { M.of mem.now pass.new }
    ensures as_before { IsAsBefore (M.view pass.old) (M.view pass.new) }
    ensures line { IfOk result (λ line. line.items ≡ answer_line (hits_in (M.made mem.now).sense query.now)) }
{
    match hits_of(rt, alloc, mem, pass, query) {
        Ok(hits) => match answer_line(alloc, &hits) {
            Ok(line) => Ok(line),
            Err(_) => Err(Memory),
        },
        Err(Memory) => Err(Memory),
    }
}

// The messages of whose words the query holds.
fn hits_of<M: TxMemory<MailSense>, R: Wait + Sync>(
    rt: &R,
    alloc: Global,
    mem: &M,
    pass: &mut M::Pass,
    query: &Query,
) -> Result<Vec<u64>, Memory>
    requires of { M.of mem.now pass.old }
    requires idle { (M.view pass.old).state ≡ Idle }
    requires whole { IsWhole (M.view pass.old) }
    requires complete { IsComplete (M.made mem.now).sense (last_index (M.made mem.now) (M.view pass.old).history) }
    ensures of { M.of mem.now pass.new }
    ensures as_before { IsAsBefore (M.view pass.old) (M.view pass.new) }
    ensures hits { IfOk result (λ hits. hits.items ≡ hits_in (M.made mem.now).sense query.now) }
{
    mail_words::laws::keys_are_totally_ordered();
    pass_knows(mem, pass);
    let mut read = match read_words(rt, alloc, mem, pass, query) {
        Ok(read) => read,
        Err(Memory) => return Err(Memory),
    };
    let count = mem.sense().lists().messages();
    match evaluate(alloc, query, count, &mut read) {
        Ok(hits) => Ok(hits),
        Err(EvalStop::Memory) => Err(Memory),
        Err(EvalStop::Postings { stop }) => match stop {
            ListsStop::Memory => Err(Memory),
            ListsStop::NotRead => unreachable!(),
        },
    }
}

// The messages of each word of the query, as one attempt reads them. No other pass lives, so nothing stops it.
fn read_words<M: TxMemory<MailSense>, R: Wait + Sync>(
    rt: &R,
    alloc: Global,
    mem: &M,
    pass: &mut M::Pass,
    query: &Query,
) -> Result<ReadLists, Memory>
    requires of { M.of mem.now pass.old }
    requires idle { (M.view pass.old).state ≡ Idle }
    requires whole { IsWhole (M.view pass.old) }
    requires complete { IsComplete (M.made mem.now).sense (last_index (M.made mem.now) (M.view pass.old).history) }
    ensures of { M.of mem.now pass.new }
    ensures as_before { IsAsBefore (M.view pass.old) (M.view pass.new) }
    ensures keys { IfOk result (λ read. HasKeys read.lists (keys_in query.now)) }
    ensures lists { IfOk result (λ read. HasLists read.lists (rows_of mail_layout (last_index (M.made mem.now) (M.view pass.old).history))) }
{
    let Ok(keys) = keys_of(alloc, query) else {
        return Err(Memory);
    };
    made_well(mem, pass);
    pass_knows(mem, pass);
    let mut asking = Asking {
        alloc,
        keys,
        read: ReadLists::new(alloc),
    };
    match atomically(rt, mem, pass, &mut asking) {
        Ok(_) => {
            pass_knows(mem, pass);
            Ok(asking.read)
        }
        Err(BodyStop::Refused { refusal }) => {
            pass_knows(mem, pass);
            match refusal {
                Unread::Memory => Err(Memory),
                Unread::Sealed { segment: _ } => unreachable!(),
            }
        }
        Err(BodyStop::Worn { index: _ }) => unreachable!(),
    }
}
