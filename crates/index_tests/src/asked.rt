//! Calls on an index that follow one another, and what each of them answers.
ghost use Rattle.std.specs.Prelude.{◌≡◌};
ghost use Rattle.tx_model.specs.declared.pass.PassState.TheVariants.{Idle};

use crate::buckets::put_two;
use crate::heap::{offset_of, own_segment};
use crate::listing::rows_grow;
use crate::mailbox::index_of;
use crate::postings::{added, added_whole, left, lists};
use std::alloc::Global;
use std::process::Abort;
use std::sync::Wait;
use std::test::Fail;
use tx_heap::MailSense;
use tx_model::{Receipt, TxMemory};
use tx_postings::{AddStop, Added, Leaving};

/// A call, and its answer.
#[derive(Clone, Copy)]
pub enum Call<'a> {
    /// A batch of a message is added, where the index has that message.
    Add {
        message: u64,
        answer: Option<Result<Added, AddStop>>,
    },
    /// Batches of a message are added until none of its words is to come.
    AddWhole {
        message: u64,
    },
    /// The messages of a word are listed, the one added last first.
    List {
        word: &'a [u8],
        messages: &'a [u64],
    },
    /// A segment is left for another one of its lane.
    Leave {
        lane: u64,
        segment: u64,
        leaving: Leaving,
    },
    /// The own segment of a lane is opened.
    Open {
        lane: u64,
        segment: u64,
    },
    /// The record of a word is looked for in the own segment of a lane.
    Find {
        lane: u64,
        word: &'a [u8],
        offset: Option<u64>,
    },
    /// Records of two words are put into the own segment of the first one's lane, and found there.
    PutTwo {
        first: &'a [u8],
        second: &'a [u8],
        offsets: [Option<u64>; 4],
    },
    /// Each message is added in turn, and all rows are listed after each.
    GrowRows,
}

/// A batch of a message, after which so many words are to come, by its commit.
pub fn batch<'a>(message: u64, left: u64, stamp: u64, wrote: bool) -> Call<'a> {
    let receipt = Receipt { stamp, wrote };
    Call::Add {
        message,
        answer: Some(Ok(Added { receipt, left })),
    }
}

impl Call<'_> {
    /// Whether the call has its answer.
    fn is_answered<M: TxMemory<MailSense>, R: Wait + Sync>(
        &self,
        rt: &R,
        alloc: Global,
        mem: &M,
        pass: &mut M::Pass,
    ) -> bool
        requires of { M.of mem.now pass.old }
        requires idle { (M.view pass.old).state ≡ Idle }
        ensures of { M.of mem.now pass.new }
        ensures idle { (M.view pass.new).state ≡ Idle }
        ensures share { (M.view pass.new).share ≡ (M.view pass.old).share }
    {
        match self {
            Call::Add { message, answer } => added(rt, mem, pass, *message) == *answer,
            Call::AddWhole { message } => added_whole(rt, mem, pass, *message).is_some(),
            Call::List { word, messages } => lists(rt, alloc, mem, pass, word, messages),
            Call::Leave {
                lane,
                segment,
                leaving,
            } => left(rt, mem, pass, *lane, *segment) == Some(*leaving),
            Call::Open { lane, segment } => own_segment(rt, mem, pass, *lane) == Some(*segment),
            Call::Find { lane, word, offset } => {
                offset_of(rt, mem, pass, *lane, word) == Some(*offset)
            }
            Call::PutTwo {
                first,
                second,
                offsets,
            } => put_two(rt, mem, pass, first, second) == Some(*offsets),
            Call::GrowRows => rows_grow(rt, alloc, mem, pass),
        }
    }
}

/// Makes the calls one after another, up to the first that has another answer, and says which that is.
fn first_other<M: TxMemory<MailSense>, R: Wait + Sync>(
    rt: &R,
    alloc: Global,
    mem: &M,
    pass: &mut M::Pass,
    calls: &[Call<'_>],
) -> Option<usize>
    requires of { M.of mem.now pass.old }
    requires idle { (M.view pass.old).state ≡ Idle }
    ensures of { M.of mem.now pass.new }
    ensures idle { (M.view pass.new).state ≡ Idle }
    ensures share { (M.view pass.new).share ≡ (M.view pass.old).share }
{
    for (at, call) in calls.iter().enumerate() {
        if !call.is_answered(rt, alloc, mem, pass) {
            return Some(at);
        }
    }
    None
}

/// The calls are made of an index with this sense, each has its answer, and these words are left.
pub fn words_after<R: Abort + Wait + Sync>(
    rt: &R,
    alloc: Global,
    sense: MailSense,
    calls: &[Call<'_>],
) -> Result<Vec<u64>, Fail> {
    let (mem, mut pass) = index_of(alloc, sense)?;
    let other = first_other(rt, alloc, &mem, &mut pass, calls);
    let words = mem.close(pass);
    assert_eq!(rt; other, None);
    Ok(words)
}
