//! A source in memory that fails at the calls that it is told.
ghost use Rattle.std.specs.Prelude.{◌≡◌, ◌<◌, ◌↔◌, Some, min, length, IfOk, IsErr, Contains, if◌then◌else◌, is_err};
ghost use Rattle.std.specs.Io.{ReadsAtMost};
ghost use Rattle.std.specs.Io.KnownBytes.{ReadConsumes};
ghost use Rattle.mail_io.specs.Causes.{HasCause};
ghost use Rattle.mail_io.specs.Counts.{counted_up};
ghost use Rattle.mail_io.specs.Refusals.{TakeFailed};

use crate::{Failed, QuietSource, Source};
use std::marker::Model;

/// Bytes in memory, which a call gives in pieces, but for the calls that fail.
#[derive(Drop)]
pub struct MemSource {
    source: QuietSource,
    fail_at: Vec<u64>,
    calls: u64,
    faults: u64,
}

impl Model for MemSource {
    ghost use Rattle.mail_io.specs.InMemory.{Failing};

    ghost Value = { Failing };

    ghost view = { λ s. record {
      left = s.source.left;
      piece = s.source.piece;
      calls = s.calls;
      fail_at = s.fail_at.items;
      faults = s.faults;
    } };
}

impl MemSource {
    /// Gives at most `piece` bytes in a call. The calls of `take` are numbered from 1, and those in
    /// `fail_at` fail.
    pub fn new(bytes: Vec<u8>, piece: usize, fail_at: Vec<u64>) -> MemSource
        requires { 0 < piece }
        ensures { result ≡ record {
          left = bytes.items;
          piece = piece;
          calls = 0;
          fail_at = fail_at.items;
          faults = 0;
        } }
    {
        MemSource {
            source: QuietSource::new(bytes, piece),
            fail_at,
            calls: 0,
            faults: 0,
        }
    }

    /// How many calls have failed.
    pub fn faults(&self) -> u64
        ensures { result ≡ self.now.faults }
    {
        self.faults
    }
}

impl Source for MemSource {
    ghost left = { λ s. Some s.left };

    ghost faults = { λ s. s.faults };

    ghost calls = { λ s. s.calls };

    /// Fails exactly at the calls that it was told. Any other gives the least of a piece, the length
    /// of `into` and what is left.
    fn take(&mut self, into: &mut [u8]) -> Result<usize, Failed>
        requires { 0 < length into.old }
        ensures bound { ReadsAtMost result into.new }
        ensures told { ReadConsumes (Some self.old.left) (Some self.new.left) result into.new }
        ensures cause { HasCause TakeFailed self.old.faults self.new.faults result }
        ensures counted { self.new.calls ≡ counted_up self.old.calls }
        ensures exactly_failed { IsErr result ↔ Contains self.old.fail_at self.new.calls }
        ensures exactly_given { IfOk result (λ n.
            n ≡ min (min self.old.piece (length into.old)) (length self.old.left)) }
        ensures exactly_counted { self.new.faults
            ≡ (if is_err result then counted_up self.old.faults else self.old.faults) }
        ensures piece { self.new.piece ≡ self.old.piece }
        ensures fail_at { self.new.fail_at ≡ self.old.fail_at }
    {
        self.calls = self.calls.saturating_add(1);
        if self.fail_at.contains(&self.calls) {
            self.faults = self.faults.saturating_add(1);
            return Err(Failed);
        }
        self.source.take(into)
    }
}
