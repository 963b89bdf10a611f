//! Sources and sinks, where no clause speaks: that calls with ample memory succeed, printed text, and faults in mid-stream
//! of readers and writers.
use mail_io::{
    Failed, MemSink, MemSource, Memory, PutError, QuietSink, QuietSource, ReadError, ReaderSource,
    Sink, Source, WriteError, WriterSink, read_all, write_all,
};
use std::alloc::Global;
use std::fmt::Display;
use std::io::{self, ErrorKind, Read, Write};
use std::process::Abort;
use std::test::Fail;

const LINE: &[u8] = b"2: 1 3\n";

fn has_bytes(rt: &impl Abort, found: &[u8], expected: &[u8]) {
    assert_eq!(rt; found, expected);
}

#[test]
fn four_bytes_are_read_and_five_are_too_large(rt: HostRuntime) -> Result<(), Fail> {
    let alloc = rt.alloc();
    let mut four = MemSource::new(b"four".to_vec(alloc)?, 3, Vec::new(alloc));
    has_bytes(&rt, &read_all(alloc, &mut four, 4)?, b"four");
    let mut five = MemSource::new(b"fives".to_vec(alloc)?, 3, Vec::new(alloc));
    assert!(rt; matches!(read_all(alloc, &mut five, 4), Err(ReadError::TooLarge)));
    Ok(())
}

#[test]
fn a_fault_stops_reading(rt: HostRuntime) -> Result<(), Fail> {
    let alloc = rt.alloc();
    let bytes = vec![in alloc; b'm'; 40]?;
    let mut source = MemSource::new(bytes, 16, vec![in alloc; 2, 3]?);
    assert!(rt; matches!(read_all(alloc, &mut source, 100), Err(ReadError::Failed)));
    assert_eq!(rt; source.faults(), 1);
    Ok(())
}

/// The line can't be written, and so many of its bytes were sent.
fn fails_after<K: Sink>(rt: &impl Abort, sink: &mut K, sent: u64) {
    assert_eq!(rt; write_all(sink, LINE), Err(WriteError::Failed { sent }));
}

/// The sink, which takes four bytes in a call, fails at the second.
fn stops_after_four(rt: &impl Abort, alloc: Global, fail_at: Vec<u64>) {
    let mut sink = MemSink::new(alloc, 4, fail_at);
    fails_after(rt, &mut sink, 4);
    has_bytes(rt, sink.bytes(), b"2: 1");
    assert_eq!(rt; sink.faults(), 1);
}

#[test]
fn a_fault_stops_writing(rt: HostRuntime) -> Result<(), Fail> {
    let alloc = rt.alloc();
    stops_after_four(&rt, alloc, vec![in alloc; 2]?);
    stops_after_four(&rt, alloc, vec![in alloc; 2, 3]?);
    Ok(())
}

#[test]
fn all_is_moved_in_many_pieces(rt: HostRuntime) -> Result<(), Fail> {
    let alloc = rt.alloc();
    let bytes = vec![in alloc; b'm'; 600_000]?;
    let mut source = QuietSource::new(bytes, 100_000);
    let bytes = read_all(alloc, &mut source, 600_000)?;
    assert_eq!(rt; bytes.len(), 600_000);
    let mut sink = QuietSink::new(alloc, 250_000);
    write_all(&mut sink, &bytes)?;
    assert!(rt; sink.bytes() == bytes.as_slice());
    Ok(())
}

#[test]
fn a_reader_and_a_writer_are_passed_on(rt: HostRuntime) -> Result<(), Fail> {
    let alloc = rt.alloc();
    let mut source = ReaderSource::new(LINE);
    let bytes = read_all(alloc, &mut source, 100)?;
    has_bytes(&rt, &bytes, LINE);
    let mut held = Vec::new(alloc);
    let mut sink = WriterSink::new(&mut held);
    write_all(&mut sink, &bytes)?;
    has_bytes(&rt, &held, LINE);
    Ok(())
}

/// A stream whose first call is interrupted. The second moves one byte, and the third fails.
#[derive(Drop)]
struct Broken {
    calls: u64,
}

impl Broken {
    fn next(&mut self) -> io::Result<usize> {
        self.calls = self.calls.saturating_add(1);
        match self.calls {
            1 => Err(ErrorKind::Interrupted.into()),
            2 => Ok(1),
            _ => Err(io::Error::other("broken")),
        }
    }
}

impl Read for Broken {
    fn read(&mut self, buf: &mut [u8]) -> io::Result<usize> {
        let count = self.next()?;
        Ok(count.min(buf.len()))
    }
}

impl Write for Broken {
    fn write(&mut self, buf: &[u8]) -> io::Result<usize> {
        let count = self.next()?;
        Ok(count.min(buf.len()))
    }

    fn flush(&mut self) -> io::Result<()> {
        Ok(())
    }
}

#[test]
fn an_interrupted_call_is_tried_again(rt: HostRuntime) {
    let mut source = ReaderSource::new(Broken { calls: 0 });
    assert_eq!(rt; source.take(&mut [0; 4]), Ok(1));
    assert_eq!(rt; source.take(&mut [0; 4]), Err(Failed));
    fails_after(&rt, &mut WriterSink::new(Broken { calls: 0 }), 1);
}

/// A writer that takes all, and can't bring it out.
#[derive(Drop)]
struct Full;

impl Write for Full {
    fn write(&mut self, buf: &[u8]) -> io::Result<usize> {
        Ok(buf.len())
    }

    fn flush(&mut self) -> io::Result<()> {
        Err(io::Error::other("full"))
    }
}

fn puts_nothing<K: Sink>(rt: &impl Abort, sink: &mut K) {
    assert_eq!(rt; sink.put(LINE), Err(PutError::Failed));
}

#[test]
fn an_error_of_a_flush_is_a_fault(rt: HostRuntime) {
    let mut sink = WriterSink::new(Full);
    puts_nothing(&rt, &mut sink);
    fails_after(&rt, &mut sink, 0);
}

#[test]
fn a_writer_that_takes_nothing_is_a_fault(rt: HostRuntime) {
    let mut none: [u8; 0] = [];
    puts_nothing(&rt, &mut WriterSink::new(none.as_mut_slice()));
}

fn prints<E: Display>(rt: &impl Abort, alloc: Global, refusal: &E, text: &str) {
    match format!(in alloc; "{refusal}") {
        Ok(printed) => assert_eq!(rt; printed.as_str(), text),
        Err(_) => panic!(rt; "no memory"),
    }
}

#[test]
fn refusals_are_printed(rt: HostRuntime) {
    let alloc = rt.alloc();
    prints(&rt, alloc, &Failed, "reading failed");
    prints(&rt, alloc, &Memory, "no memory");
    prints(&rt, alloc, &PutError::Failed, "writing failed");
    prints(&rt, alloc, &ReadError::TooLarge, "the input is too large");
    let cut_short = WriteError::Failed { sent: 4 };
    prints(&rt, alloc, &cut_short, "writing failed after 4 bytes");
}
