//! Threads that carry a task out over one memory.
ghost use Rattle.std.specs.Prelude.{◌≡◌, ◌<◌, ◌≤◌, ◌+◌, length};
ghost use Rattle.std.specs.Thread.{IsSync, IsSend};
ghost use Rattle.tx_model.specs.declared.pass.PassState.TheVariants.{Idle};
ghost use Rattle.bench_stm.specs.declared.addresses.TheConstants.{WORDS};

use crate::addresses::{APART, drawn};
use crate::sense::Countdowns;
use crate::tally::Tally;
use crate::work::{Task, Work};
use std::sync::Wait;
use std::thread::{Threads, join_mut};
use tx_model::laws::{pass_knows, rejoined_share};
use tx_model::{Memory, TxMemory, atomically};

/// How many threads there are.
#[derive(Clone, Copy)]
pub enum Team {
    One,
    Two,
    Four,
}

/// How many threads there are, and how many attempts each of them commits.
#[derive(Clone, Copy)]
pub struct Plan {
    pub team: Team,
    pub rounds: u64,
}

/// Carries the task out in as many threads as the plan says.
pub fn carry_out<P: Send, M: TxMemory<Countdowns, Pass = P> + Sync, R: Threads + Wait + Sync>(
    rt: &R,
    mem: &M,
    pass: &mut P,
    task: Task,
    plan: Plan,
) -> Result<Tally, Memory>
    requires of { M.of mem.now pass.old }
    requires idle { (M.view pass.old).state ≡ Idle }
    requires words { length (M.made mem.now).opening ≡ WORDS }
    ensures of { M.of mem.now pass.new }
    ensures idle { (M.view pass.new).state ≡ Idle }
    ensures share { (M.view pass.new).share ≡ (M.view pass.old).share }
{
    match plan.team {
        Team::One => Ok(repeat(rt, mem, pass, task, 0, plan.rounds)),
        Team::Two => in_two(rt, mem, pass, task, 0, plan.rounds),
        Team::Four => in_four(rt, mem, pass, task, plan.rounds),
    }
}

/// Carries the task out in one thread.
fn repeat<M: TxMemory<Countdowns>, R: Wait + Sync>(
    rt: &R,
    mem: &M,
    pass: &mut M::Pass,
    task: Task,
    thread: u64,
    rounds: u64,
) -> Tally
    requires of { M.of mem.now pass.old }
    requires idle { (M.view pass.old).state ≡ Idle }
    requires words { length (M.made mem.now).opening ≡ WORDS }
    requires thread { thread < 4 }
    ensures of { M.of mem.now pass.new }
    ensures idle { (M.view pass.new).state ≡ Idle }
    ensures share { (M.view pass.new).share ≡ (M.view pass.old).share }
{
    let mut body = Work {
        task,
        count_at: thread * APART,
        number: 0,
        attempts: 0,
        sum: 0,
    };
    let mut commits = 0;
    for round in 0..rounds {
        body.number = drawn(thread, round);
        if atomically(rt, mem, pass, &mut body).is_ok() {
            commits += 1;
        }
    }
    Tally {
        commits,
        stops: body.attempts.wrapping_sub(commits),
        sum: body.sum,
    }
}

/// Carries the task out in two threads.
fn in_two<P: Send, M: TxMemory<Countdowns, Pass = P> + Sync, R: Threads + Wait + Sync>(
    rt: &R,
    mem: &M,
    pass: &mut P,
    task: Task,
    thread: u64,
    rounds: u64,
) -> Result<Tally, Memory>
    requires of { M.of mem.now pass.old }
    requires idle { (M.view pass.old).state ≡ Idle }
    requires words { length (M.made mem.now).opening ≡ WORDS }
    requires threads { thread + 1 < 4 }
    ensures of { M.of mem.now pass.new }
    ensures idle { (M.view pass.new).state ≡ Idle }
    ensures share { (M.view pass.new).share ≡ (M.view pass.old).share }
{
    pass_knows(mem, pass);
    rejoined_share();
    let mut other = mem.split(pass)?;
    let (one, two) = two_at_once(rt, mem, pass, &mut other, task, thread, rounds);
    mem.join(pass, other);
    Ok(one.with(two))
}

fn two_at_once<P: Send, M: TxMemory<Countdowns, Pass = P> + Sync, R: Threads + Wait + Sync>(
    rt: &R,
    mem: &M,
    pass: &mut P,
    other: &mut P,
    task: Task,
    thread: u64,
    rounds: u64,
) -> (Tally, Tally)
    requires of { M.of mem.now pass.old × M.of mem.now other.old }
    requires idle { ((M.view pass.old).state ≡ Idle) × ((M.view other.old).state ≡ Idle) }
    requires words { length (M.made mem.now).opening ≡ WORDS }
    requires threads { thread + 1 < 4 }
    ensures of { M.of mem.now pass.new × M.of mem.now other.new }
    ensures idle { ((M.view pass.new).state ≡ Idle) × ((M.view other.new).state ≡ Idle) }
    ensures share { (M.view pass.new).share ≡ (M.view pass.old).share }
    ensures other_share { (M.view other.new).share ≡ (M.view other.old).share }
{
    let mut first = || -> Tally
        requires { IsSync R.row × IsSync M.row × IsSend P.row × M.of mem.now pass.now × ((M.view pass.now).state ≡ Idle)
            × (length (M.made mem.now).opening ≡ WORDS) × (thread + 1 < 4) }
        ensures { M.of mem.entry.now pass.exit.now × ((M.view pass.exit.now).state ≡ Idle)
            × ((M.view pass.exit.now).share ≡ (M.view pass.entry.now).share) }
    { repeat(rt, mem, pass, task, thread, rounds) };
    let mut second = || -> Tally
        requires { IsSync R.row × IsSync M.row × IsSend P.row × M.of mem.now other.now × ((M.view other.now).state ≡ Idle)
            × (length (M.made mem.now).opening ≡ WORDS) × (thread + 1 < 4) }
        ensures { M.of mem.entry.now other.exit.now × ((M.view other.exit.now).state ≡ Idle)
            × ((M.view other.exit.now).share ≡ (M.view other.entry.now).share) }
    { repeat(rt, mem, other, task, thread + 1, rounds) };
    join_mut(rt, &mut first, &mut second)
}

/// Carries the task out in four threads.
fn in_four<P: Send, M: TxMemory<Countdowns, Pass = P> + Sync, R: Threads + Wait + Sync>(
    rt: &R,
    mem: &M,
    pass: &mut P,
    task: Task,
    rounds: u64,
) -> Result<Tally, Memory>
    requires of { M.of mem.now pass.old }
    requires idle { (M.view pass.old).state ≡ Idle }
    requires words { length (M.made mem.now).opening ≡ WORDS }
    ensures of { M.of mem.now pass.new }
    ensures idle { (M.view pass.new).state ≡ Idle }
    ensures share { (M.view pass.new).share ≡ (M.view pass.old).share }
{
    pass_knows(mem, pass);
    rejoined_share();
    let mut other = mem.split(pass)?;
    let (one, two) = four_at_once(rt, mem, pass, &mut other, task, rounds);
    mem.join(pass, other);
    Ok(one?.with(two?))
}

fn four_at_once<P: Send, M: TxMemory<Countdowns, Pass = P> + Sync, R: Threads + Wait + Sync>(
    rt: &R,
    mem: &M,
    pass: &mut P,
    other: &mut P,
    task: Task,
    rounds: u64,
) -> (Result<Tally, Memory>, Result<Tally, Memory>)
    requires of { M.of mem.now pass.old × M.of mem.now other.old }
    requires idle { ((M.view pass.old).state ≡ Idle) × ((M.view other.old).state ≡ Idle) }
    requires words { length (M.made mem.now).opening ≡ WORDS }
    ensures of { M.of mem.now pass.new × M.of mem.now other.new }
    ensures idle { ((M.view pass.new).state ≡ Idle) × ((M.view other.new).state ≡ Idle) }
    ensures share { (M.view pass.new).share ≡ (M.view pass.old).share }
    ensures other_share { (M.view other.new).share ≡ (M.view other.old).share }
{
    let mut first = || -> Result<Tally, Memory>
        requires { IsSync R.row × IsSync M.row × IsSend P.row × M.of mem.now pass.now × ((M.view pass.now).state ≡ Idle)
            × (length (M.made mem.now).opening ≡ WORDS) }
        ensures { M.of mem.entry.now pass.exit.now × ((M.view pass.exit.now).state ≡ Idle)
            × ((M.view pass.exit.now).share ≡ (M.view pass.entry.now).share) }
    { in_two(rt, mem, pass, task, 0, rounds) };
    let mut second = || -> Result<Tally, Memory>
        requires { IsSync R.row × IsSync M.row × IsSend P.row × M.of mem.now other.now × ((M.view other.now).state ≡ Idle)
            × (length (M.made mem.now).opening ≡ WORDS) }
        ensures { M.of mem.entry.now other.exit.now × ((M.view other.exit.now).state ≡ Idle)
            × ((M.view other.exit.now).share ≡ (M.view other.entry.now).share) }
    { in_two(rt, mem, other, task, 2, rounds) };
    join_mut(rt, &mut first, &mut second)
}
