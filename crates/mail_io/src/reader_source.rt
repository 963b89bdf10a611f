//! A source over any reader.
ghost use Rattle.std.specs.Prelude.{◌≡◌, ◌<◌, length, take, IfOk, OnErr};
ghost use Rattle.std.specs.Io.{ReadsAtMost};
ghost use Rattle.std.specs.Io.KnownBytes.{Consumes, Keeps, IsAtEnd};
ghost use Rattle.mail_io.specs.Edges.{reader_of, reader_faults, reader_calls};

use crate::{Failed, Source};
use std::io::{ErrorKind, Read};

/// A source over a reader. An error of the reader is a fault; a read that a signal interrupts is
/// tried again.
#[derive(Drop)]
pub struct ReaderSource<R> {
    reader: R,
    faults: u64,
    calls: u64,
}

impl<R: Read> ReaderSource<R> {
    pub fn new(reader: R) -> ReaderSource<R>
        ensures reader { reader_of result ≡ reader }
        ensures faults { reader_faults result ≡ 0 }
        ensures calls { reader_calls result ≡ 0 }
    {
        ReaderSource {
            reader,
            faults: 0,
            calls: 0,
        }
    }
}

impl<R: Read> Source for ReaderSource<R> {
    ghost left = { λ s. R.remaining s.reader };

    ghost faults = { λ s. s.faults };

    ghost calls = { λ s. s.calls };

    fn take(&mut self, into: &mut [u8]) -> Result<usize, Failed> {
        self.calls = self.calls.saturating_add(1);
        match read(&mut self.reader, into) {
            Ok(count) => Ok(count),
            Err(Failed) => {
                self.faults = self.faults.saturating_add(1);
                Err(Failed)
            }
        }
    }
}

// One read, which is tried again where a signal interrupts it.
fn read<R: Read>(reader: &mut R, into: &mut [u8]) -> Result<usize, Failed>
    ensures bound { ReadsAtMost result into.new }
    ensures ok { IfOk result (λ n.
        Consumes (R.remaining reader.old) (R.remaining reader.new) (take n into.new)) }
    ensures end { IfOk result (λ n. n ≡ 0 → 0 < length into.old → IsAtEnd (R.remaining reader.new)) }
    ensures err { OnErr result (Keeps (R.remaining reader.old) (R.remaining reader.new)) }
{
    for _ in 0..u64::MAX {
        match reader.read(into) {
            Ok(count) => return Ok(count),
            Err(error) => {
                if error.kind() != ErrorKind::Interrupted {
                    return Err(Failed);
                }
            }
        }
    }
    Err(Failed)
}
