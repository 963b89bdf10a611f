//! Reading all of a source.
ghost use Rattle.std.specs.Prelude.{◌≡◌, ◌<◌, ◌≤◌, ◌+◌, ◌^◌, ◌++◌, ◌↔◌, length, IsErrOf, IsTrue, OnOk};
ghost use Rattle.std.specs.Result.{IsOkUnless};
ghost use Rattle.std.specs.Io.{ReadsAtMost};
ghost use Rattle.std.specs.Io.KnownBytes.{ReadConsumes};
ghost use Rattle.mail_io.specs.Causes.{HasCause};
ghost use Rattle.mail_io.specs.Counts.{counted_up};
ghost use Rattle.mail_io.specs.declared.errors.ReadError.TheVariants as ReadError;
ghost use Rattle.mail_io.specs.Reading.{TakesAll};
ghost use Rattle.mail_io.specs.Refusals.{ReadFailed};

use crate::{ReadError, Source};
use std::alloc::Global;

// The most bytes that are asked for in one call.
const PIECE: usize = 256 * 1024;

/// Reads a source to its end, or until more than `limit` bytes were taken, which is `TooLarge`.
/// It doesn't read on after a fault. Each call of `take` but the last took a byte, so there are at
/// most `limit + 1`. It asks for 256 KiB in a call, where that doesn't pass the limit.
pub fn read_all<S: Source>(alloc: Global, source: &mut S, limit: u64) -> Result<Vec<u8>, ReadError>
    requires { limit < 2 ^ 32 }
    ensures bytes { TakesAll (S.left source.old) (S.left source.new) limit result }
    ensures cause { HasCause ReadFailed (S.faults source.old) (S.faults source.new) result }
    ensures calls { S.calls source.new ≤ S.calls source.old + (limit + 1) }
{
    let limit = limit as usize;
    let mut piece = vec![in alloc; 0u8; PIECE.min(limit + 1)]?;
    let mut bytes = Vec::new(alloc);
    loop {
        let rest = limit - bytes.len();
        let room = piece.len().min(rest + 1);
        let into = &mut piece[..room];
        let count = take_once(source, into)?;
        if count == 0 {
            return Ok(bytes);
        }
        keep(&mut bytes, &into[..count], rest)?;
    }
}

// Calls `take` once, whatever it answers.
fn take_once<S: Source>(source: &mut S, into: &mut [u8]) -> Result<usize, ReadError>
    requires { 0 < length into.old }
    ensures bound { ReadsAtMost result into.new }
    ensures told { ReadConsumes (S.left source.old) (S.left source.new) result into.new }
    ensures cause { HasCause ReadFailed (S.faults source.old) (S.faults source.new) result }
    ensures counted { S.calls source.new ≡ counted_up (S.calls source.old) }
    ensures failed { IsOkUnless result ReadError.Failed }
{
    match source.take(into) {
        Ok(count) => Ok(count),
        Err(_) => Err(ReadError::Failed),
    }
}

// Puts more bytes behind those that there are, where they are no more than `rest`.
fn keep(bytes: &mut Vec<u8>, more: &[u8], rest: usize) -> Result<(), ReadError>
    ensures ok { OnOk result (bytes.new.items ≡ bytes.old.items ++ more.now) }
    ensures exactly_large { IsErrOf result ReadError.TooLarge ↔ (rest < length more.now) }
    ensures not_failed { ¬ IsErrOf result ReadError.Failed }
{
    if are_more(more, rest) {
        return Err(ReadError::TooLarge);
    }
    bytes.extend_from_slice(more)?;
    Ok(())
}

// Whether there are more bytes than `rest`.
fn are_more(bytes: &[u8], rest: usize) -> bool
    ensures { IsTrue result ↔ (rest < length bytes.now) }
{
    bytes.len() > rest
}
