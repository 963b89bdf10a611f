//! A sink over any writer.
ghost use Rattle.std.specs.Prelude.{◌≡◌, ◌<◌, ◌≤◌, length, take, None, IfOk, IfSome, IfNone};
ghost use Rattle.std.specs.Io.{WritesAtMost};
ghost use Rattle.std.specs.Io.KnownBytes.{Appends, Keeps, WriteAppends};
ghost use Rattle.mail_io.specs.Causes.{HasCause};
ghost use Rattle.mail_io.specs.Edges.{writer_of, writer_faults};
ghost use Rattle.mail_io.specs.Refusals.{PutFailed, PutWantsMemory};
ghost use Rattle.mail_io.specs.Writing.{AppendsPrefix, PassesOn};

use crate::{PutError, Sink};
use std::io::{ErrorKind, Write};

/// A sink over a writer. An error of the writer is a fault, at a write or at the flush that follows
/// it, and so is a write that took nothing. A call that a signal interrupts is tried again.
/// It tells nothing of what it holds, since a failed flush leaves that open.
#[derive(Drop)]
pub struct WriterSink<W> {
    writer: W,
    faults: u64,
}

impl<W: Write> WriterSink<W> {
    pub fn new(writer: W) -> WriterSink<W>
        ensures writer { writer_of result ≡ writer }
        ensures faults { writer_faults result ≡ 0 }
    {
        WriterSink { writer, faults: 0 }
    }
}

impl<W: Write> Sink for WriterSink<W> {
    ghost held = { λ _. None };

    ghost faults = { λ s. s.faults };

    ghost wants = { λ _. 0 };

    ghost offered = { λ before piece result after. PassesOn (W.contents before.writer) (W.contents after.writer) result piece };

    fn put(&mut self, piece: &[u8]) -> Result<usize, PutError>
        requires { 0 < length piece.now }
        ensures some { IfOk result (λ n. 0 < n) }
        ensures bound { WritesAtMost result piece.now }
        ensures told { WriteAppends None None result piece.now }
        ensures offered { PassesOn (W.contents (writer_of self.old)) (W.contents (writer_of self.new)) result piece.now }
        ensures fault_cause { HasCause PutFailed (writer_faults self.old) (writer_faults self.new) result }
        ensures want_cause { HasCause PutWantsMemory 0 0 result }
    {
        match write_through(&mut self.writer, piece) {
            Some(count) => Ok(count),
            None => {
                self.faults = self.faults.saturating_add(1);
                Err(PutError::Failed)
            }
        }
    }
}

// One write, and then a flush, so that an error which a buffer would hide shows here.
fn write_through<W: Write>(writer: &mut W, piece: &[u8]) -> Option<usize>
    ensures bound { IfSome result (λ n. (0 < n) × (n ≤ length piece.now)) }
    ensures some { IfSome result (λ n.
        Appends (W.contents writer.old) (W.contents writer.new) (take n piece.now)) }
    ensures none { IfNone result
        (AppendsPrefix (W.contents writer.old) (W.contents writer.new) piece.now) }
{
    let count = write(writer, piece)?;
    flush(writer)?;
    Some(count)
}

// One write, which is tried again where a signal interrupts it. It is none where nothing was taken.
fn write<W: Write>(writer: &mut W, piece: &[u8]) -> Option<usize>
    ensures bound { IfSome result (λ n. (0 < n) × (n ≤ length piece.now)) }
    ensures some { IfSome result (λ n.
        Appends (W.contents writer.old) (W.contents writer.new) (take n piece.now)) }
    ensures none { IfNone result (Keeps (W.contents writer.old) (W.contents writer.new)) }
{
    for _ in 0..u64::MAX {
        match writer.write(piece) {
            Ok(0) => return None,
            Ok(count) => return Some(count),
            Err(error) => {
                if error.kind() != ErrorKind::Interrupted {
                    return None;
                }
            }
        }
    }
    None
}

// One flush, which is tried again where a signal interrupts it.
fn flush<W: Write>(writer: &mut W) -> Option<()>
    ensures { Keeps (W.contents writer.old) (W.contents writer.new) }
{
    for _ in 0..u64::MAX {
        match writer.flush() {
            Ok(()) => return Some(()),
            Err(error) => {
                if error.kind() != ErrorKind::Interrupted {
                    return None;
                }
            }
        }
    }
    None
}
