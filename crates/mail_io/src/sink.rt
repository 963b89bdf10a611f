//! Where bytes go to.
ghost use Rattle.std.specs.Prelude.{◌<◌, ℕ, List, length, Result, IfOk};
ghost use Rattle.std.specs.declared.option.Option.{Option};
ghost use Rattle.std.specs.Io.{WritesAtMost};
ghost use Rattle.std.specs.Io.KnownBytes.{WriteAppends};
ghost use Rattle.mail_io.specs.Causes.{HasCause};
ghost use Rattle.mail_io.specs.Refusals.{PutFailed, PutWantsMemory};
ghost use Rattle.mail_io.specs.declared.errors.PutError.{PutError};

use crate::PutError;

/// A sink of bytes.
pub trait Sink {
    /// The bytes that it holds, where the sink tells them.
    ghost held: { Self → Option (List ℕ) };

    /// How often it has failed, as a `u64` that stands still at its end.
    ghost faults: { Self → ℕ };

    /// How often it was refused memory, as a `u64` that stands still at its end.
    ghost wants: { Self → ℕ };

    /// What a call of `put` is: the value before it, the piece that it is offered, its answer and the value after it.
    ghost offered: { Self → List ℕ → Result ℕ PutError → Self → Type 0 };

    /// Takes bytes from the front of `piece`, at least one, and says how many.
    /// A refusal leaves the bytes that are held.
    fn put(&mut self, piece: &[u8]) -> Result<usize, PutError>
        requires { 0 < length piece.now }
        ensures some { IfOk result (λ n. 0 < n) }
        ensures bound { WritesAtMost result piece.now }
        ensures told { WriteAppends (held self.old) (held self.new) result piece.now }
        ensures offered { offered self.old piece.now result self.new }
        ensures fault_cause { HasCause PutFailed (faults self.old) (faults self.new) result }
        ensures want_cause { HasCause PutWantsMemory (wants self.old) (wants self.new) result };
}
