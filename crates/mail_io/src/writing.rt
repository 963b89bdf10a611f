//! Writing all of a text.
ghost use Rattle.std.specs.Prelude.{[], ◌∷◌, is_err};
ghost use Rattle.mail_io.specs.Causes.{HasCause};
ghost use Rattle.mail_io.specs.Refusals.{WriteFailed, WriteWantsMemory};
ghost use Rattle.mail_io.specs.Writing.{Sends, Offers};

use crate::{PutError, Sink, WriteError};

/// Writes all bytes to a sink. Each call of `put` is offered all that isn't sent yet, until all is sent or a call is
/// refused. It isn't tried again.
pub fn write_all<K: Sink>(sink: &mut K, bytes: &[u8]) -> Result<(), WriteError>
    ensures bytes { Sends (K.held sink.old) (K.held sink.new) bytes.now result }
    ensures offered { Offers K.offered sink.old (bytes.now ∷ []) (is_err result) sink.new }
    ensures fault_cause { HasCause WriteFailed (K.faults sink.old) (K.faults sink.new) result }
    ensures want_cause { HasCause WriteWantsMemory (K.wants sink.old) (K.wants sink.new) result }
{
    let mut sent = 0;
    while sent < bytes.len() {
        match sink.put(&bytes[sent..]) {
            Ok(count) => sent += count,
            Err(PutError::Failed) => return Err(WriteError::Failed { sent: sent as u64 }),
            Err(PutError::Memory) => return Err(WriteError::Memory { sent: sent as u64 }),
        }
    }
    Ok(())
}
