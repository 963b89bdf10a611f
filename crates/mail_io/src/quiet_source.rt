//! A source in memory that never fails.
ghost use Rattle.std.specs.Prelude.{◌≡◌, ◌<◌, ◌≤◌, Some, Ok, min, length, drop};
ghost use Rattle.std.specs.Io.{ReadsAtMost};
ghost use Rattle.std.specs.Io.KnownBytes.{ReadConsumes};
ghost use Rattle.mail_io.specs.Causes.{HasCause};
ghost use Rattle.mail_io.specs.Counts.{counted_up};
ghost use Rattle.mail_io.specs.Refusals.{TakeFailed};

use crate::{Failed, Source};
use std::marker::Model;

/// Bytes in memory, which a call gives in pieces. It never fails.
#[derive(Drop)]
pub struct QuietSource {
    bytes: Vec<u8>,
    at: usize,
    piece: usize,
    calls: u64,
}

impl Model for QuietSource {
    ghost use Rattle.std.specs.Prelude.{◌<◌, ◌≤◌, length, drop};
    ghost use Rattle.mail_io.specs.InMemory.{Quiet};

    ghost Value = { Quiet };

    ghost view = { λ s. record { left = drop s.at s.bytes.items; piece = s.piece; calls = s.calls } };

    ghost invariant = { λ s. (0 < s.piece) × (s.at ≤ length s.bytes.items) };
}

impl QuietSource {
    /// Gives at most `piece` bytes in a call.
    pub fn new(bytes: Vec<u8>, piece: usize) -> QuietSource
        requires { 0 < piece }
        ensures { result ≡ record { left = bytes.items; piece = piece; calls = 0 } }
    {
        QuietSource {
            bytes,
            at: 0,
            piece,
            calls: 0,
        }
    }
}

impl Source for QuietSource {
    ghost left = { λ s. Some s.left };

    ghost faults = { λ _. 0 };

    ghost calls = { λ s. s.calls };

    /// Gives the least of a piece, the length of `into` and what is left.
    fn take(&mut self, into: &mut [u8]) -> Result<usize, Failed>
        requires { 0 < length into.old }
        ensures bound { ReadsAtMost result into.new }
        ensures told { ReadConsumes (Some self.old.left) (Some self.new.left) result into.new }
        ensures cause { HasCause TakeFailed 0 0 result }
        ensures counted { self.new.calls ≡ counted_up self.old.calls }
        ensures exactly_given { result
            ≡ Ok (min (min self.old.piece (length into.old)) (length self.old.left)) }
        ensures piece { self.new.piece ≡ self.old.piece }
    {
        self.calls = self.calls.saturating_add(1);
        let left = &self.bytes[self.at..];
        let n = self.piece.min(into.len()).min(left.len());
        into[..n].copy_from_slice(&left[..n]);
        self.at += n;
        Ok(n)
    }
}
