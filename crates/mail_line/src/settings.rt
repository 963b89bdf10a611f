//! What the words ask for.
ghost use Rattle.std.specs.Prelude.{◌≡◌, map, string_bytes, IfOk, Some, None, Err};
ghost use Rattle.clap.specs.Words.{found_of, rows_of};
ghost use Rattle.mail_line.specs.CommandLine.{settings_of, settings_by, settings_with, queries_in};
ghost use Rattle.mail_line.specs.Views.{seen};

use crate::command::matches_in;
use crate::options::{Options, is_set, options_in};
use clap::ArgMatches;
use std::alloc::{AllocError, Global};
use thiserror::Error;

/// What a command line asks for.
#[derive(Drop)]
pub enum Settings<'a> {
    /// A script is replayed.
    Replay,
    /// Queries are answered, 1 to 64 of them.
    Ask {
        /// How many workers there are, 1 to 64.
        workers: u64,
        /// How many entries the ring of commits has, 1 to 4,096.
        ring: u64,
        /// How many bits a signature has: 64, 128, 256, 512 or 1,024.
        bits: u64,
        /// Whether the last line reports what the memory committed.
        report: bool,
        /// Of how many messages a mailbox is made, at most 100,000; none where one is read.
        generate: Option<u64>,
        /// The queries' texts, in order.
        queries: Vec<&'a str>,
    },
}

/// Why a command line asks for nothing.
#[derive(Clone, Copy, Debug, PartialEq, Eq, Error)]
pub enum LineError {
    /// The words are no command line.
    #[error("the words are no command line")]
    Usage,
    /// Want of memory.
    #[error("no memory")]
    Memory,
}

impl From<AllocError> for LineError {
    ghost use Rattle.std.specs.Prelude.{◌≡◌};
    ghost use Rattle.mail_line.specs.declared.settings.LineError.TheVariants.{Memory};

    ghost from_gives = { λ _ e. e ≡ Memory };

    fn from(_: AllocError) -> Self {
        LineError::Memory
    }
}

/// What the words after the program's name ask for.
///
/// Fails with `Usage` only where the words are no command line.
pub fn settings_of<'a>(alloc: Global, words: &'a [String]) -> Result<Settings<'a>, LineError>
    ensures ok { IfOk result (λ settings. settings_of (map string_bytes words.now) ≡ Some (seen settings)) }
    ensures usage { result ≡ Err LineError.Usage → settings_of (map string_bytes words.now) ≡ None }
{
    let matches = matches_in(alloc, words)?;
    settings_by(alloc, &matches)
}

fn settings_by<'a>(alloc: Global, matches: &ArgMatches<'a>) -> Result<Settings<'a>, LineError>
    ensures ok { IfOk result (λ settings. settings_by (rows_of (found_of matches.now)) ≡ Some (seen settings)) }
    ensures usage { result ≡ Err LineError.Usage → settings_by (rows_of (found_of matches.now)) ≡ None }
{
    let queries = queries_in(alloc, matches)?;
    let Some(options) = options_in(matches) else {
        return Err(LineError::Usage);
    };
    settings_with(is_set(matches, "replay"), options, queries)
}

fn settings_with<'a>(
    replay: bool,
    options: Options,
    queries: Vec<&'a str>,
) -> Result<Settings<'a>, LineError>
    ensures ok { IfOk result (λ settings. settings_with replay options (map (λ q. q.now) queries.entry.items) ≡ Some (seen settings)) }
    ensures usage { result ≡ Err LineError.Usage → settings_with replay options (map (λ q. q.now) queries.entry.items) ≡ None }
{
    if replay {
        if options.has_none() && queries.is_empty() {
            return Ok(Settings::Replay);
        }
        return Err(LineError::Usage);
    }
    if queries.is_empty() || queries.len() > 64 {
        return Err(LineError::Usage);
    }
    Ok(Settings::Ask {
        workers: options.workers.unwrap_or(4),
        ring: options.ring.unwrap_or(1_024),
        bits: options.bits.unwrap_or(1_024),
        report: options.report,
        generate: options.generate,
        queries,
    })
}

fn queries_in<'a>(alloc: Global, matches: &ArgMatches<'a>) -> Result<Vec<&'a str>, AllocError>
    ensures { IfOk result (λ queries. map (λ q. q.now) queries.items ≡ queries_in (rows_of (found_of matches.now))) }
{
    let mut queries = Vec::new(alloc);
    let Some(texts) = matches.get_strs("queries") else {
        return Ok(queries);
    };
    for text in texts {
        queries.push(*text)?;
    }
    Ok(queries)
}
