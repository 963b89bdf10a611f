//! `bench_index TASK COUNT WORKERS` makes the mailbox of COUNT messages. With the task `lists` so many workers read its words, where there
//! are any. With `turn_memory` or `ring` one reads them, and so many bring them into an index, over `TurnMemory`, which runs one attempt at a
//! time, or over a ring; 0 workers open the memory and close it. It prints how many messages and words of messages were read, and how many
//! segments are in use. Without words it is `turn_memory 3 2`.
#![tactic(auto)]

mod indexed;
mod reading;
mod start;

use indexed::{indexed_over_ring, indexed_over_turn_memory};
use mail_gen::MOST_MESSAGES;
use reading::read;
use std::alloc::Global;
use std::sync::Wait;
use std::thread::Threads;
use std::{env, io};

/// The most workers that are tried.
const MOST_WORKERS: u64 = 64;

/// What is done with the words of a mailbox.
#[derive(Clone, Copy)]
enum Task {
    /// They are read.
    Lists,
    /// They are brought into an index over `TurnMemory`, which runs one attempt at a time.
    TurnMemory,
    /// They are brought into an index over a ring.
    Ring,
}

/// What is measured: a task with so many messages and workers.
#[derive(Clone, Copy)]
struct Bench {
    task: Task,
    count: u64,
    workers: u64,
}

/// What there is afterwards.
#[derive(Clone, Copy)]
struct Counts {
    messages: u64,
    words: u64,
    segments: u64,
}

fn main(rt: HostRuntime) -> io::Result<()> {
    let args = env::args(&rt)?;
    let words: Vec<String> = args.skip(1).collect(rt.alloc())?;
    let Some(bench) = asked(words.as_slice()) else {
        return println!(rt;
            "bench_index TASK COUNT WORKERS, TASK one of lists, turn_memory and ring"
        );
    };
    match measured(&rt, rt.alloc(), bench) {
        Some(counts) => println!(rt;
            "{} messages, {} words, {} segments",
            counts.messages, counts.words, counts.segments
        ),
        None => println!(rt; "no memory"),
    }
}

/// What the words ask for, if they ask for something that there is.
fn asked(words: &[String]) -> Option<Bench> {
    match words {
        [] => Some(Bench {
            task: Task::TurnMemory,
            count: 3,
            workers: 2,
        }),
        [task, count, workers] => Some(Bench {
            task: task_of(task.as_str())?,
            count: count.parse().ok()?,
            workers: workers.parse().ok()?,
        }),
        _ => None,
    }
}

fn task_of(word: &str) -> Option<Task> {
    match word {
        "lists" => Some(Task::Lists),
        "turn_memory" => Some(Task::TurnMemory),
        "ring" => Some(Task::Ring),
        _ => None,
    }
}

/// Carries the task out. None where there is want of memory, or too much is asked for.
fn measured<R: Threads + Wait + Sync>(rt: &R, alloc: Global, bench: Bench) -> Option<Counts> {
    let Bench {
        task,
        count,
        workers,
    } = bench;
    if workers > MOST_WORKERS || count > MOST_MESSAGES {
        return None;
    }
    let readers = match task {
        Task::Lists => workers,
        Task::TurnMemory | Task::Ring => 1,
    };
    let sense = read(rt, alloc, count, readers)?;
    let messages = sense.lists().messages();
    let words = sense.lists().postings();
    let segments = match task {
        Task::Lists => 0,
        Task::TurnMemory => indexed_over_turn_memory(rt, alloc, sense, workers).ok()?,
        Task::Ring => indexed_over_ring(rt, alloc, sense, workers).ok()?,
    };
    Some(Counts {
        messages,
        words,
        segments,
    })
}
