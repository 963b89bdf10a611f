//! Where bytes come from.
ghost use Rattle.std.specs.Prelude.{◌≡◌, ◌<◌, ℕ, List, length};
ghost use Rattle.std.specs.declared.option.Option.{Option};
ghost use Rattle.std.specs.Io.{ReadsAtMost};
ghost use Rattle.std.specs.Io.KnownBytes.{ReadConsumes};
ghost use Rattle.mail_io.specs.Causes.{HasCause};
ghost use Rattle.mail_io.specs.Counts.{counted_up};
ghost use Rattle.mail_io.specs.Refusals.{TakeFailed};

use crate::Failed;

/// A source of bytes.
pub trait Source {
    /// The bytes that are left, where the source tells them.
    ghost left: { Self → Option (List ℕ) };

    /// How often it has failed, as a `u64` that stands still at its end.
    ghost faults: { Self → ℕ };

    /// How often `take` was called, as a `u64` that stands still at its end.
    ghost calls: { Self → ℕ };

    /// Moves bytes that are left to the front of `into`, and says how many. `Ok(0)` is the end.
    /// `Failed` leaves the bytes that are left.
    fn take(&mut self, into: &mut [u8]) -> Result<usize, Failed>
        requires { 0 < length into.old }
        ensures bound { ReadsAtMost result into.new }
        ensures told { ReadConsumes (left self.old) (left self.new) result into.new }
        ensures cause { HasCause TakeFailed (faults self.old) (faults self.new) result }
        ensures counted { calls self.new ≡ counted_up (calls self.old) };
}
