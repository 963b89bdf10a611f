//! What the command line asks for.
ghost use Rattle.std.specs.Prelude.{◌≡◌, ◌≤◌, map, length, string_bytes};
ghost use Rattle.mail_search.specs.Outcome.{IsAsked, AreRead};

use crate::status::Status;
use mail_line::laws::settings_within_bounds;
use mail_line::{Settings, settings_of};
use mail_query::{Query, QueryError, parse};
use std::alloc::Global;

/// What a run does.
#[derive(Drop)]
pub enum Task {
    /// A script is replayed.
    Replay,
    /// Queries are answered.
    Answer(Asked),
}

/// Queries, what they are asked of, and how.
#[derive(Drop)]
pub struct Asked {
    /// How many workers there are.
    pub workers: u64,
    /// How many entries the ring of commits has.
    pub ring: u64,
    /// How many bits a signature has.
    pub bits: u64,
    /// Whether the last line reports what the memory committed.
    pub report: bool,
    /// Of how many messages a mailbox is made, at most 100,000; none where one is read.
    pub generate: Option<u64>,
    pub queries: Vec<Query>,
}

/// What the words ask for.
pub fn task_of(alloc: Global, words: &[String]) -> Result<Task, Status>
    ensures { IsAsked (map string_bytes words.now) result }
{
    settings_within_bounds();
    match settings_of(alloc, words)? {
        Settings::Replay => Ok(Task::Replay),
        Settings::Ask {
            workers,
            ring,
            bits,
            report,
            generate,
            queries,
        } => Ok(Task::Answer(Asked {
            workers,
            ring,
            bits,
            report,
            generate,
            queries: queries_of(alloc, &queries)?,
        })),
    }
}

// The queries that the texts are.
fn queries_of(alloc: Global, texts: &[&str]) -> Result<Vec<Query>, Status>
    requires few { length texts.now ≤ 64 }
    ensures { AreRead (map (λ text. text.now) texts.now) result }
{
    let mut queries = Vec::new(alloc);
    for (index, text) in texts.iter().enumerate() {
        match parse(alloc, text.as_bytes()) {
            Ok(query) => queries.push(query)?,
            Err(QueryError::Memory) => return Err(Status::Memory),
            Err(error) => {
                return Err(Status::BadQuery {
                    query: index as u8 + 1,
                    error,
                });
            }
        }
    }
    Ok(queries)
}
