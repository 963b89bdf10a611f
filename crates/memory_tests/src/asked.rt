//! Calls on a memory that counts down, which follow one another, and what each of them answers.
ghost use Rattle.std.specs.Prelude.{◌≡◌, ◌≤◌, ◌^◌, length};
ghost use Rattle.tx_model.specs.declared.pass.PassState.TheVariants.{Idle};

use crate::attempts::fills;
use crate::uses::{both_now, commit_a_raise, commit_nothing, made};
use std::alloc::Global;
use std::process::Abort;
use std::sync::Wait;
use std::test::Fail;
use tx_model::{BodyStop, CommitError, Receipt, Stop, TxMemory};
use tx_uses::{
    ApartStop, Countdown, RaiseRefusal, Seen, SeenStop, raise_apart, raise_then_read, raise_word,
    read_now,
};

/// A call, and its answer.
#[derive(Clone, Copy)]
pub enum Call {
    /// A word is raised.
    Raise {
        word: u64,
        answer: Result<Receipt, BodyStop<RaiseRefusal>>,
    },
    /// A word is raised by a further pass.
    RaiseApart {
        word: u64,
        answer: Result<Receipt, ApartStop>,
    },
    /// A word is raised by a further pass, and read then.
    RaiseThenRead {
        word: u64,
        answer: Result<Seen, SeenStop>,
    },
    /// A word is read.
    Read {
        word: u64,
        answer: Result<u64, Stop>,
    },
    /// Words 1 and 2 are read in one attempt.
    ReadBoth {
        answer: Result<(u64, u64), Stop>,
    },
    /// An attempt that wrote nothing is committed.
    CommitNothing {
        answer: Result<Receipt, CommitError>,
    },
    /// A word is raised in one attempt, whose commit has this answer.
    CommitARaise {
        word: u64,
        answer: Option<Result<Receipt, CommitError>>,
    },
    /// The number of words is asked for.
    Length {
        answer: u64,
    },
    /// An attempt writes as many words as it may, and is given up.
    Fill,
}

/// The commit of this index, which wrote.
pub fn written(stamp: u64) -> Receipt {
    Receipt { stamp, wrote: true }
}

impl Call {
    /// Whether the call has its answer.
    fn is_answered<M: TxMemory<Countdown>, R: Wait + Sync>(
        &self,
        rt: &R,
        mem: &M,
        pass: &mut M::Pass,
    ) -> bool
        requires of { M.of mem.now pass.old }
        requires idle { (M.view pass.old).state ≡ Idle }
        ensures of { M.of mem.now pass.new }
        ensures idle { (M.view pass.new).state ≡ Idle }
        ensures share { (M.view pass.new).share ≡ (M.view pass.old).share }
    {
        let words = mem.len();
        match self {
            Call::Raise { word, answer } if 0 < *word && *word < words => {
                raise_word(rt, mem, pass, *word) == *answer
            }
            Call::RaiseApart { word, answer } if 0 < *word && *word < words => {
                raise_apart(rt, mem, pass, *word) == *answer
            }
            Call::RaiseThenRead { word, answer } if 0 < *word && *word < words => {
                raise_then_read(rt, mem, pass, *word) == *answer
            }
            Call::Read { word, answer } if *word < words => {
                read_now(rt, mem, pass, *word) == *answer
            }
            Call::ReadBoth { answer } if 2 < words => both_now(rt, mem, pass) == *answer,
            Call::CommitNothing { answer } => commit_nothing(rt, mem, pass) == *answer,
            Call::CommitARaise { word, answer } if 0 < *word && *word < words => {
                commit_a_raise(rt, mem, pass, *word) == *answer
            }
            Call::Length { answer } => words == *answer,
            Call::Fill if 256 < words => fills(rt, mem, pass),
            _ => false,
        }
    }
}

/// Makes the calls one after another, up to the first that has another answer, and says which that is.
fn first_other<M: TxMemory<Countdown>, R: Wait + Sync>(
    rt: &R,
    mem: &M,
    pass: &mut M::Pass,
    calls: &[Call],
) -> Option<usize>
    requires of { M.of mem.now pass.old }
    requires idle { (M.view pass.old).state ≡ Idle }
    ensures of { M.of mem.now pass.new }
    ensures idle { (M.view pass.new).state ≡ Idle }
    ensures share { (M.view pass.new).share ≡ (M.view pass.old).share }
{
    for (at, call) in calls.iter().enumerate() {
        if !call.is_answered(rt, mem, pass) {
            return Some(at);
        }
    }
    None
}

/// The calls are made of a memory of these words and this life, each has its answer, and these words are left.
pub fn words_after<R: Abort + Wait + Sync>(
    rt: &R,
    alloc: Global,
    words: Vec<u64>,
    life: u64,
    calls: &[Call],
) -> Result<Vec<u64>, Fail>
    requires size { (1 ≤ length words.items) × (length words.items ≤ 2 ^ 27) }
    requires life { (1 ≤ life) × (life ≤ 2 ^ 60) }
{
    let (mem, mut pass) = made(alloc, words, life)?;
    let other = first_other(rt, &mem, &mut pass, calls);
    let words = mem.close(pass);
    assert_eq!(rt; other, None);
    Ok(words)
}
