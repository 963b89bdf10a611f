//! A sink in memory that fails at the calls that it is told.
ghost use Rattle.std.specs.Prelude.{◌≡◌, ◌<◌, ◌↔◌, [], Some, min, length, IfOk, IsErrOf, Contains};
ghost use Rattle.std.specs.Io.{WritesAtMost};
ghost use Rattle.std.specs.Io.KnownBytes.{WriteAppends};
ghost use Rattle.mail_io.specs.Causes.{HasCause};
ghost use Rattle.mail_io.specs.Counts.{counted_up};
ghost use Rattle.mail_io.specs.InMemory.{MemOffered, faults_after, wants_after};
ghost use Rattle.mail_io.specs.Refusals.{PutFailed, PutWantsMemory};

use crate::{PutError, QuietSink, Sink};
use std::alloc::Global;
use std::marker::Model;

/// Bytes in memory, to which a call adds in pieces, but for the calls that fail.
#[derive(Drop)]
pub struct MemSink {
    sink: QuietSink,
    fail_at: Vec<u64>,
    calls: u64,
    faults: u64,
}

impl Model for MemSink {
    ghost use Rattle.mail_io.specs.InMemory.{FailingStore};

    ghost Value = { FailingStore };

    ghost view = { λ s. record {
      held = s.sink.held;
      piece = s.sink.piece;
      wants = s.sink.wants;
      calls = s.calls;
      fail_at = s.fail_at.items;
      faults = s.faults;
    } };
}

impl MemSink {
    /// Takes at most `piece` bytes in a call. The calls of `put` are numbered from 1, and those in
    /// `fail_at` fail.
    pub fn new(alloc: Global, piece: usize, fail_at: Vec<u64>) -> MemSink
        requires { 0 < piece }
        ensures { result ≡ record {
          held = [];
          piece = piece;
          wants = 0;
          calls = 0;
          fail_at = fail_at.items;
          faults = 0;
        } }
    {
        MemSink {
            sink: QuietSink::new(alloc, piece),
            fail_at,
            calls: 0,
            faults: 0,
        }
    }

    /// The bytes that it holds.
    pub fn bytes(&self) -> &[u8]
        ensures { result.now ≡ self.now.held }
    {
        self.sink.bytes()
    }

    /// How many calls have failed.
    pub fn faults(&self) -> u64
        ensures { result ≡ self.now.faults }
    {
        self.faults
    }
}

impl Sink for MemSink {
    ghost held = { λ s. Some s.held };

    ghost faults = { λ s. s.faults };

    ghost wants = { λ s. s.wants };

    ghost offered = { MemOffered };

    /// Fails exactly at the calls that it was told. Any other takes the lesser of its piece and all
    /// that it is offered, or is refused memory.
    fn put(&mut self, piece: &[u8]) -> Result<usize, PutError>
        requires { 0 < length piece.now }
        ensures some { IfOk result (λ n. 0 < n) }
        ensures bound { WritesAtMost result piece.now }
        ensures told { WriteAppends (Some self.old.held) (Some self.new.held) result piece.now }
        ensures offered { MemOffered self.old piece.now result self.new }
        ensures fault_cause { HasCause PutFailed self.old.faults self.new.faults result }
        ensures want_cause { HasCause PutWantsMemory self.old.wants self.new.wants result }
        ensures exactly_failed { IsErrOf result PutError.Failed
            ↔ Contains self.old.fail_at self.new.calls }
        ensures exactly_counted { self.new.faults ≡ faults_after self.old.faults result }
        ensures exactly_wanted { self.new.wants ≡ wants_after self.old.wants result }
        ensures piece { self.new.piece ≡ self.old.piece }
        ensures fail_at { self.new.fail_at ≡ self.old.fail_at }
    {
        self.calls = self.calls.saturating_add(1);
        if self.fail_at.contains(&self.calls) {
            self.faults = self.faults.saturating_add(1);
            return Err(PutError::Failed);
        }
        self.sink.put(piece)
    }
}
