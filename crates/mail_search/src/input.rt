//! The mailbox that is searched.
ghost use Rattle.std.specs.Prelude.{◌≡◌, ◌≤◌, ℕ, IfOk, Some};
ghost use Rattle.ring_replay.specs.Outcome.{source_seen};
ghost use Rattle.mail_search.specs.Outcome.{IsTaken};

use crate::status::Status;
use mail_gen::make_mbox;
use mail_io::{Source, read_all};
use std::alloc::Global;

/// The most bytes of input that are taken.
pub const INPUT_LIMIT: u64 = 67_108_864;

/// All bytes of the source, or the mailbox that is made of so many messages.
pub fn input_of<S: Source>(
    alloc: Global,
    generate: Option<u64>,
    source: &mut S,
) -> Result<Vec<u8>, Status>
    requires few { (count : ℕ) → generate ≡ Some count → count ≤ 100_000 }
    ensures taken { IsTaken generate (source_seen S.left S.faults source.old) (source_seen S.left S.faults source.new) result }
    ensures untouched { (count : ℕ) → generate ≡ Some count → source.new ≡ source.old }
{
    match generate {
        None => Ok(read_all(alloc, source, INPUT_LIMIT)?),
        Some(count) => Ok(make_mbox(alloc, count)?),
    }
}
