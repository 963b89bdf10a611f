//! The uses of a memory, over the memory that runs one attempt at a time.
ghost use Rattle.std.specs.Prelude.{◌≡◌, ◌≤◌, ◌<◌, ◌^◌, length, IfOk};
ghost use Rattle.tx_model.specs.declared.pass.PassState.TheVariants.{Idle};
ghost use Rattle.tx_model.specs.Pass.{IsWhole};

use crate::asked::{Call, words_after, written};
use std::alloc::Global;
use std::sync::Wait;
use std::test::Fail;
use std::thread::{Threads, join_mut};
use turn_memory::{TurnMemory, TurnPass};
use tx_model::laws::{made_well, pass_knows, rejoined_share};
use tx_model::{Body, BodyStep, BodyStop, CommitError, Memory, Receipt, Stop, TxMemory};
use tx_uses::{Countdown, Raise, RaiseRefusal, Seen, raise_word, read_two};

/// A memory with these words, and its first pass.
pub(crate) fn made(
    alloc: Global,
    words: Vec<u64>,
    life: u64,
) -> Result<(TurnMemory<Countdown>, TurnPass<Countdown>), Memory>
    requires size { (1 ≤ length words.items) × (length words.items ≤ 2 ^ 27) }
    requires life { (1 ≤ life) × (life ≤ 2 ^ 60) }
    ensures of { IfOk result (λ r. ⟦<TurnMemory<Countdown> as TxMemory<Countdown>>⟧.of r.0 r.1) }
    ensures opening { IfOk result (λ r. (⟦<TurnMemory<Countdown> as TxMemory<Countdown>>⟧.made r.0).opening ≡ words.items) }
    ensures idle { IfOk result (λ r. (⟦<TurnMemory<Countdown> as TxMemory<Countdown>>⟧.view r.1).state ≡ Idle) }
    ensures whole { IfOk result (λ r. IsWhole (⟦<TurnMemory<Countdown> as TxMemory<Countdown>>⟧.view r.1)) }
{
    TurnMemory::new(alloc, Countdown, words, Vec::new(alloc), life)
}

/// Commits an attempt that wrote nothing.
pub fn commit_nothing<M: TxMemory<Countdown>, R: Wait + Sync>(
    rt: &R,
    mem: &M,
    pass: &mut M::Pass,
) -> Result<Receipt, CommitError>
    requires of { M.of mem.now pass.old }
    requires idle { (M.view pass.old).state ≡ Idle }
    ensures of { M.of mem.now pass.new }
    ensures idle { (M.view pass.new).state ≡ Idle }
    ensures share { (M.view pass.new).share ≡ (M.view pass.old).share }
{
    mem.begin(rt, pass);
    mem.commit(rt, pass)
}

/// Raises a word in one attempt, and says what its commit answered.
pub fn commit_a_raise<M: TxMemory<Countdown>, R: Wait + Sync>(
    rt: &R,
    mem: &M,
    pass: &mut M::Pass,
    word: u64,
) -> Option<Result<Receipt, CommitError>>
    requires of { M.of mem.now pass.old }
    requires idle { (M.view pass.old).state ≡ Idle }
    requires other { 0 < word }
    requires within { word < length (M.made mem.now).opening }
    ensures of { M.of mem.now pass.new }
    ensures idle { (M.view pass.new).state ≡ Idle }
    ensures share { (M.view pass.new).share ≡ (M.view pass.old).share }
{
    let mut body = Raise::of(word);
    mem.begin(rt, pass);
    match body.attempt(mem, pass) {
        Ok(()) => Some(mem.commit(rt, pass)),
        Err(BodyStep::Stopped { stop: _ }) => None,
        Err(BodyStep::Refused { refusal: _ }) => {
            mem.give_up(pass);
            None
        }
    }
}

#[test]
fn a_memory_of_one_life_is_worn(rt: HostRuntime) -> Result<(), Fail> {
    let words = vec![in rt.alloc(); 5, 7]?;
    let nothing = Receipt {
        stamp: 1,
        wrote: false,
    };
    let calls = [
        Call::Raise {
            word: 1,
            answer: Ok(written(1)),
        },
        Call::Raise {
            word: 1,
            answer: Err(BodyStop::Worn { index: 1 }),
        },
        Call::CommitARaise {
            word: 1,
            answer: Some(Err(CommitError::Worn { index: 1 })),
        },
        Call::CommitNothing {
            answer: Ok(nothing),
        },
    ];
    let words = words_after(&rt, rt.alloc(), words, 1, &calls)?;
    assert_eq!(rt; words, vec![in rt.alloc(); 4, 8]?);
    Ok(())
}

/// A raise of word 1 that is refused like this.
fn refused(refusal: RaiseRefusal) -> Call {
    Call::Raise {
        word: 1,
        answer: Err(BodyStop::Refused { refusal }),
    }
}

#[test]
fn refusals_of_a_raise(rt: HostRuntime) -> Result<(), Fail> {
    let spent = vec![in rt.alloc(); 0, 7]?;
    let words = words_after(&rt, rt.alloc(), spent, 9, &[refused(RaiseRefusal::Spent)])?;
    assert_eq!(rt; words, vec![in rt.alloc(); 0, 7]?);

    let full = vec![in rt.alloc(); 3, 18446744073709551615]?;
    let words = words_after(&rt, rt.alloc(), full, 9, &[refused(RaiseRefusal::Full)])?;
    assert_eq!(rt; words, vec![in rt.alloc(); 3, 18446744073709551615]?);
    Ok(())
}

/// Reads words 1 and 2 in one attempt.
pub fn both_now<M: TxMemory<Countdown>, R: Wait + Sync>(
    rt: &R,
    mem: &M,
    pass: &mut M::Pass,
) -> Result<(u64, u64), Stop>
    requires of { M.of mem.now pass.old }
    requires idle { (M.view pass.old).state ≡ Idle }
    requires within { 3 ≤ length (M.made mem.now).opening }
    ensures of { M.of mem.now pass.new }
    ensures idle { (M.view pass.new).state ≡ Idle }
    ensures share { (M.view pass.new).share ≡ (M.view pass.old).share }
{
    mem.begin(rt, pass);
    made_well(mem, pass);
    let values = read_two(mem, pass, 1, 2)?;
    mem.give_up(pass);
    Ok(values)
}

#[test]
fn two_words_of_one_time(rt: HostRuntime) -> Result<(), Fail> {
    let words = vec![in rt.alloc(); 5, 7, 9]?;
    let seen = Seen {
        receipt: written(1),
        value: 10,
    };
    let calls = [
        Call::ReadBoth { answer: Ok((7, 9)) },
        Call::RaiseThenRead {
            word: 2,
            answer: Ok(seen),
        },
        Call::ReadBoth {
            answer: Ok((7, 10)),
        },
    ];
    let words = words_after(&rt, rt.alloc(), words, 9, &calls)?;
    assert_eq!(rt; words, vec![in rt.alloc(); 4, 7, 10]?);
    Ok(())
}

#[test]
fn what_was_committed_is_read(rt: HostRuntime) -> Result<(), Fail> {
    let words = vec![in rt.alloc(); 5, 7]?;
    let calls = [
        Call::RaiseApart {
            word: 1,
            answer: Ok(written(1)),
        },
        Call::Read {
            word: 0,
            answer: Ok(4),
        },
        Call::Read {
            word: 1,
            answer: Ok(8),
        },
    ];
    let words = words_after(&rt, rt.alloc(), words, 9, &calls)?;
    assert_eq!(rt; words, vec![in rt.alloc(); 4, 8]?);
    Ok(())
}

/// Raises word 1 so many times, and says how many of the raises were committed.
fn raise_often<M: TxMemory<Countdown>, R: Wait + Sync>(
    rt: &R,
    mem: &M,
    pass: &mut M::Pass,
    times: u64,
) -> u64
    requires of { M.of mem.now pass.old }
    requires idle { (M.view pass.old).state ≡ Idle }
    requires within { 1 < length (M.made mem.now).opening }
    ensures of { M.of mem.now pass.new }
    ensures idle { (M.view pass.new).state ≡ Idle }
    ensures share { (M.view pass.new).share ≡ (M.view pass.old).share }
{
    let mut raised = 0;
    for _ in 0..times {
        if raise_word(rt, mem, pass, 1).is_ok() {
            raised += 1;
        }
    }
    raised
}

/// Raises word 1 so many times by each of two passes, in a thread of its own.
/// Says how many of the raises each of them committed.
fn raise_beside<P: Send, M: TxMemory<Countdown, Pass = P> + Sync, R: Threads + Wait + Sync>(
    rt: &R,
    mem: &M,
    first: &mut P,
    second: &mut P,
    times: u64,
) -> (u64, u64)
    requires of { M.of mem.now first.old × M.of mem.now second.old }
    requires idle { ((M.view first.old).state ≡ Idle) × ((M.view second.old).state ≡ Idle) }
    requires within { 1 < length (M.made mem.now).opening }
    ensures of { M.of mem.now first.new × M.of mem.now second.new }
    ensures idle { ((M.view first.new).state ≡ Idle) × ((M.view second.new).state ≡ Idle) }
    ensures first { (M.view first.new).share ≡ (M.view first.old).share }
    ensures second { (M.view second.new).share ≡ (M.view second.old).share }
{
    let mut one = || -> u64
        requires { M.of mem.now first.now × ((M.view first.now).state ≡ Idle) × (1 < length (M.made mem.now).opening) }
        ensures { M.of mem.entry.now first.exit.now × ((M.view first.exit.now).state ≡ Idle)
            × ((M.view first.exit.now).share ≡ (M.view first.entry.now).share) }
    { raise_often(rt, mem, first, times) };
    let mut other = || -> u64
        requires { M.of mem.now second.now × ((M.view second.now).state ≡ Idle) × (1 < length (M.made mem.now).opening) }
        ensures { M.of mem.entry.now second.exit.now × ((M.view second.exit.now).state ≡ Idle)
            × ((M.view second.exit.now).share ≡ (M.view second.entry.now).share) }
    { raise_often(rt, mem, second, times) };
    let raised = join_mut(rt, &mut one, &mut other);
    raised
}

/// Splits the pass, raises word 1 so many times by each of the two, and joins them again.
fn raise_by_two<M: TxMemory<Countdown> + Sync, R: Threads + Wait + Sync>(
    rt: &R,
    mem: &M,
    pass: &mut M::Pass,
    times: u64,
) -> Result<(u64, u64), Memory>
where
    M::Pass: Send,
    requires of { M.of mem.now pass.old }
    requires idle { (M.view pass.old).state ≡ Idle }
    requires within { 1 < length (M.made mem.now).opening }
    ensures of { M.of mem.now pass.new }
    ensures idle { (M.view pass.new).state ≡ Idle }
    ensures share { (M.view pass.new).share ≡ (M.view pass.old).share }
{
    pass_knows(mem, pass);
    rejoined_share();
    let mut other = mem.split(pass)?;
    let raised = raise_beside(rt, mem, pass, &mut other, times);
    mem.join(pass, other);
    Ok(raised)
}

#[test]
fn two_threads_raise_a_word(rt: HostRuntime) -> Result<(), Fail> {
    let words = vec![in rt.alloc(); 5000, 7]?;
    let (mem, mut pass) = made(rt.alloc(), words, 9000)?;
    let raised = raise_by_two(&rt, &mem, &mut pass, 1000);
    assert_eq!(rt; raised, Ok((1000, 1000)));
    let words = mem.close(pass);
    assert_eq!(rt; words, vec![in rt.alloc(); 3000, 2007]?);
    Ok(())
}
