//! `bench_stm TASK THREADS ROUNDS` carries out a task over a transaction memory so many times on each of 1, 2 or 4 threads. TASK is
//! `counter`, `transfers`, `scans` or `batches`. `bench_stm ring BITS TASK THREADS ROUNDS` does the same over a ring, with signatures of 64
//! or 1024 bits. `bench_stm largest` opens the largest ring. Printed is how many attempts were committed, how many were stopped, and the sum
//! of all accounts that were read, modulo 2^64. Without words two threads raise a counter, a hundred times each.
#![tactic(auto)]

mod addresses;
mod ring;
mod sense;
mod tally;
mod threads;
mod work;

use addresses::WORDS;
use ring::{Bits, measure_ring, open_largest};
use sense::Countdowns;
use std::alloc::Global;
use std::sync::Wait;
use std::thread::Threads;
use std::{env, io};
use tally::Tally;
use threads::{Plan, Team, carry_out};
use turn_memory::TurnMemory;
use tx_model::Memory;
use work::Task;

/// What is measured.
enum Bench {
    /// A task over the memory that runs one attempt at a time.
    TurnMemory { task: Task, plan: Plan },
    /// A task over a ring with signatures of this length.
    Ring { bits: Bits, task: Task, plan: Plan },
    /// The opening of the largest ring.
    Largest,
}

/// Carries a task out over the memory that runs one attempt at a time.
fn measure_turn_memory<R: Threads + Wait + Sync>(
    rt: &R,
    alloc: Global,
    task: Task,
    plan: Plan,
) -> Result<Tally, Memory> {
    let words = Vec::from_elem(alloc, plan.rounds, WORDS as usize).map_err(|_| Memory)?;
    let (mem, mut pass) = TurnMemory::new(alloc, Countdowns, words, Vec::new(alloc), 1 << 60)?;
    let tally = carry_out(rt, &mem, &mut pass, task, plan);
    drop(mem.close(pass));
    tally
}

fn main(rt: HostRuntime) -> io::Result<()> {
    let args = env::args(&rt)?;
    let words: Vec<String> = args.skip(1).collect(rt.alloc())?;
    let Some(bench) = asked(words.as_slice()) else {
        return println!(rt;
            "bench_stm TASK THREADS ROUNDS, or ring BITS TASK THREADS ROUNDS, or largest"
        );
    };
    let tally = match bench {
        Bench::TurnMemory { task, plan } => measure_turn_memory(&rt, rt.alloc(), task, plan),
        Bench::Ring { bits, task, plan } => measure_ring(&rt, rt.alloc(), bits, task, plan),
        Bench::Largest => open_largest(rt.alloc()),
    };
    match tally {
        Ok(tally) => println!(rt;
            "{} commits, {} stops, sum {}",
            tally.commits, tally.stops, tally.sum
        ),
        Err(Memory) => println!(rt; "no memory"),
    }
}

/// What the words ask for, if they ask for something that there is.
fn asked(words: &[String]) -> Option<Bench> {
    match words {
        [] => Some(Bench::TurnMemory {
            task: Task::Counter,
            plan: Plan {
                team: Team::Two,
                rounds: 100,
            },
        }),
        [largest] if largest.as_str() == "largest" => Some(Bench::Largest),
        [task, threads, rounds] => Some(Bench::TurnMemory {
            task: task_of(task.as_str())?,
            plan: plan_of(threads, rounds)?,
        }),
        [ring, bits, task, threads, rounds] if ring.as_str() == "ring" => Some(Bench::Ring {
            bits: bits_of(bits.as_str())?,
            task: task_of(task.as_str())?,
            plan: plan_of(threads, rounds)?,
        }),
        _ => None,
    }
}

fn task_of(word: &str) -> Option<Task> {
    match word {
        "counter" => Some(Task::Counter),
        "transfers" => Some(Task::Transfer),
        "scans" => Some(Task::Scan { reads: 64 }),
        "batches" => Some(Task::Batch { reads: 39 }),
        _ => None,
    }
}

fn bits_of(word: &str) -> Option<Bits> {
    match word {
        "64" => Some(Bits::Few),
        "1024" => Some(Bits::Many),
        _ => None,
    }
}

fn plan_of(threads: &str, rounds: &str) -> Option<Plan> {
    let team = match threads {
        "1" => Team::One,
        "2" => Team::Two,
        "4" => Team::Four,
        _ => return None,
    };
    let rounds = rounds.parse().ok()?;
    Some(Plan { team, rounds })
}
