//! Whole runs over inputs that are past a limit.
ghost use Rattle.std.specs.Prelude.{None};

use crate::tests::{Left, check};
use mail_io::{Failed, MemSink, Source};
use mail_search::run;
use mail_workers::OpenGate;
use std::alloc::{AllocError, Global};
use std::process::Abort;
use std::sync::Wait;
use std::test::Fail;
use std::thread::Threads;

// A source of so many bytes, which are the same 32 over and over. It doesn't tell them.
#[derive(Drop)]
struct Repeating {
    bytes: [u8; 32],
    at: usize,
    left: u64,
    calls: u64,
}

impl Source for Repeating {
    ghost left = { λ _. None };

    ghost faults = { λ _. 0 };

    ghost calls = { λ s. s.calls };

    fn take(&mut self, into: &mut [u8]) -> Result<usize, Failed> {
        self.calls = self.calls.saturating_add(1);
        let count = (into.len() as u64).min(self.left) as usize;
        self.left -= count as u64;
        let mut at = self.at;
        for byte in into[..count].iter_mut() {
            *byte = self.bytes[at % 32];
            at = at % 32 + 1;
        }
        self.at = at;
        Ok(count)
    }
}

// A run for the query `a` over so many bytes that repeat.
fn run_repeating<R: Threads + Wait + Sync>(
    rt: &R,
    alloc: Global,
    bytes: [u8; 32],
    left: u64,
) -> Result<Left, AllocError> {
    let words = vec![in alloc; String::from_str(alloc, "a")?]?;
    let mut source = Repeating {
        bytes,
        at: 0,
        left,
        calls: 0,
    };
    let mut sink = MemSink::new(alloc, 200, Vec::new(alloc));
    let mut notes = MemSink::new(alloc, 200, Vec::new(alloc));
    let outcome = run(
        rt,
        alloc,
        &words,
        &mut source,
        &mut sink,
        &mut notes,
        &OpenGate,
    );
    Ok(Left {
        status: outcome.status,
        sink,
        notes,
    })
}

// A run over so many bytes that repeat ends with this status, and notes this.
fn is_past<R: Abort + Threads + Wait + Sync>(
    rt: &R,
    alloc: Global,
    bytes: [u8; 32],
    left: u64,
    status: u8,
    note: &[u8],
) -> Result<(), Fail> {
    let left = run_repeating(rt, alloc, bytes, left)?;
    check(rt, &left, status, b"", note);
    Ok(())
}

#[test]
fn refuses_what_is_past_a_limit(rt: HostRuntime) -> Result<(), Fail> {
    let alloc = rt.alloc();
    let separators = *b"From a\n\nFrom a\n\nFrom a\n\nFrom a\n\n";
    let bytes = b"mailring: input is larger than 67108864 bytes\n";
    is_past(&rt, alloc, separators, 67_108_865, 4, bytes)?;
    let messages = b"mailring: too many messages\n";
    is_past(&rt, alloc, separators, 8 * 1_048_577, 8, messages)?;
    let twelve_words = *b"From a\na b c d e f g h i j k l\n\n";
    let postings = b"mailring: too many postings\n";
    is_past(&rt, alloc, twelve_words, 32 * 699_051, 8, postings)
}
