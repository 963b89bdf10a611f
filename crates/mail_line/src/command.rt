//! The command that `clap` reads, and what it finds in the words.
ghost use Rattle.std.specs.Prelude.{◌≡◌, false, map, string_bytes, IfOk, Some, None, Err};
ghost use Rattle.clap.specs.Words.{app_of, found_of, rows_of, rule_of};
ghost use Rattle.mail_line.specs.CommandLine.{bare, flag_rule, given, line_app, option_rule};

use crate::settings::LineError;
use clap::error::ErrorKind;
use clap::{Arg, ArgAction, ArgMatches, Command};
use std::alloc::{AllocError, Global};

/// What `clap` finds in the words.
pub(crate) fn matches_in<'a>(
    alloc: Global,
    words: &'a [String],
) -> Result<ArgMatches<'a>, LineError>
    ensures found { IfOk result (λ m. given (map string_bytes words.now) ≡ Some (rows_of (found_of m))) }
    ensures usage { result ≡ Err LineError.Usage → given (map string_bytes words.now) ≡ None }
{
    let command = command(alloc)?;
    match command.try_get_matches_from(words) {
        Ok(matches) => Ok(matches),
        Err(error) => match error.kind() {
            ErrorKind::OutOfMemory => Err(LineError::Memory),
            _ => Err(LineError::Usage),
        },
    }
}

// Four options with a value, two flags, and the queries. There is no flag for help, and none for a version.
fn command<'a>(alloc: Global) -> Result<Command<'a>, AllocError>
    ensures { IfOk result (λ c. app_of c ≡ line_app) }
{
    let queries = Arg::new(alloc, "queries").action(ArgAction::Append);
    bare_command(alloc)
        .arg(option(alloc, "workers"))?
        .arg(option(alloc, "ring"))?
        .arg(option(alloc, "bits"))?
        .arg(flag(alloc, "report"))?
        .arg(option(alloc, "generate"))?
        .arg(flag(alloc, "replay"))?
        .arg(queries)
}

// The words don't begin with the program's name.
fn bare_command<'a>(alloc: Global) -> Command<'a>
    ensures { app_of result ≡ bare }
{
    Command::new(alloc, "mailring")
        .no_binary_name(true)
        .disable_help_flag(true)
}

// An option with a value.
fn option<'a>(alloc: Global, name: &'a str) -> Arg<'a>
    ensures rule { rule_of result ≡ option_rule name.entry.now }
    ensures own { result.global ≡ false }
{
    Arg::new(alloc, name).long(name).action(ArgAction::Set)
}

// An option without a value.
fn flag<'a>(alloc: Global, name: &'a str) -> Arg<'a>
    ensures rule { rule_of result ≡ flag_rule name.entry.now }
    ensures own { result.global ≡ false }
{
    Arg::new(alloc, name).long(name).action(ArgAction::SetTrue)
}
