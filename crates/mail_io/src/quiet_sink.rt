//! A sink in memory that never fails.
ghost use Rattle.std.specs.Prelude.{◌≡◌, ◌<◌, [], Some, Ok, min, length, IfOk};
ghost use Rattle.std.specs.Io.{WritesAtMost};
ghost use Rattle.std.specs.Io.KnownBytes.{WriteAppends};
ghost use Rattle.mail_io.specs.Causes.{HasCause};
ghost use Rattle.mail_io.specs.InMemory.{QuietOffered, wants_after};
ghost use Rattle.mail_io.specs.Refusals.{PutFailed, PutWantsMemory};

use crate::{PutError, Sink};
use std::alloc::Global;
use std::marker::Model;

/// Bytes in memory, to which a call adds in pieces. It never fails, and may be refused memory.
#[derive(Drop)]
pub struct QuietSink {
    bytes: Vec<u8>,
    piece: usize,
    wants: u64,
}

impl Model for QuietSink {
    ghost use Rattle.std.specs.Prelude.{◌<◌};
    ghost use Rattle.mail_io.specs.InMemory.{QuietStore};

    ghost Value = { QuietStore };

    ghost view = { λ s. record { held = s.bytes.items; piece = s.piece; wants = s.wants } };

    ghost invariant = { λ s. 0 < s.piece };
}

impl QuietSink {
    /// Takes at most `piece` bytes in a call.
    pub fn new(alloc: Global, piece: usize) -> QuietSink
        requires { 0 < piece }
        ensures { result ≡ record { held = []; piece = piece; wants = 0 } }
    {
        QuietSink {
            bytes: Vec::new(alloc),
            piece,
            wants: 0,
        }
    }

    /// The bytes that it holds.
    pub fn bytes(&self) -> &[u8]
        ensures { result.now ≡ self.now.held }
    {
        &self.bytes
    }
}

impl Sink for QuietSink {
    ghost held = { λ s. Some s.held };

    ghost faults = { λ _. 0 };

    ghost wants = { λ s. s.wants };

    ghost offered = { QuietOffered };

    /// Takes the lesser of its piece and all that it is offered.
    fn put(&mut self, piece: &[u8]) -> Result<usize, PutError>
        requires { 0 < length piece.now }
        ensures some { IfOk result (λ n. 0 < n) }
        ensures bound { WritesAtMost result piece.now }
        ensures told { WriteAppends (Some self.old.held) (Some self.new.held) result piece.now }
        ensures offered { QuietOffered self.old piece.now result self.new }
        ensures fault_cause { HasCause PutFailed 0 0 result }
        ensures want_cause { HasCause PutWantsMemory self.old.wants self.new.wants result }
        ensures exactly_wanted { self.new.wants ≡ wants_after self.old.wants result }
        ensures piece { self.new.piece ≡ self.old.piece }
    {
        let n = self.piece.min(piece.len());
        match self.bytes.extend_from_slice(&piece[..n]) {
            Ok(()) => Ok(n),
            Err(_) => {
                self.wants = self.wants.saturating_add(1);
                Err(PutError::Memory)
            }
        }
    }
}
