//! Whole runs over sources and sinks in memory.

use mail_io::{MemSink, MemSource};
use mail_search::run;
use mail_workers::{Gate, OpenGate};
use std::alloc::{AllocError, Global};
use std::process::Abort;
use std::sync::Wait;
use std::sync::atomic::{AtomicBool, AtomicU64, Ordering};
use std::test::Fail;
use std::thread::{Threads, yield_now};

const USAGE: &[u8] =
    b"mailring: usage: mailring [--workers N] [--ring R] [--bits B] [--report] [--generate N] QUERY... or mailring --replay\n";

const THREE: &[u8] =
    b"From alice@example.org Mon Mar  3 09:15:02 2008\nSubject: Ring test\n\nHello ring\n\n\
      From bob@example.org Mon Mar  3 09:20:00 2008\nSubject: other\n\nhello bloom\n\n\
      From carol@example.org Mon Mar  3 09:25:00 2008\nRING bloom bloom\n\n";

const LIST: &[u8] =
    b"From alice@example.org Mon Mar  3 09:15:02 2008\nReturn-Path: <alice@example.org>\nDate: Mon, 3 Mar 2008 09:15:02 +0000\n\
From: Alice Example <alice@example.org>\nTo: list@example.org\nSubject: Ring length and\n signature size\n\
Message-ID: <a1@example.org>\nMIME-Version: 1.0\nContent-Type: text/plain; charset=us-ascii\n\nHello all,\n\n\
>From the paper: a longer ring means fewer overruns.\n\nAlice\n\nFrom bob@example.org Tue Mar  4 11:00:30 2008\n\
Date: Tue, 4 Mar 2008 11:00:30 +0000\nFrom: Bob Example <bob@example.org>\nTo: list@example.org\n\
Subject: Re: Ring length and signature size\nIn-Reply-To: <a1@example.org>\nMessage-ID: <b2@example.org>\nMIME-Version: 1.0\n\
Content-Type: application/octet-stream\nContent-Transfer-Encoding: base64\n\n\
UmluZ1NUTSB1c2VzIGEgcmluZyBvZiBjb21taXR0ZWQgd3JpdGUgc2lnbmF0dXJlcyBhbmQgbm8g\nb3duZXJzaGlwIHJlY29yZHMu\n\n";

// Two callers: one stores the first of its two words, and the other's read meets it.
const MEETS: &[u8] =
    b"ring 4 bits 64 words 64 callers 2 life 100\n0 begin run\n1 begin run\n1 write 1 5\n1 write 2 6\n1 stamp run\n\
1 turn\n1 step 4\n0 read 1 run\n0 begin run\n0 read 3 run\n0 done\n";

// How a run ended, and what it left.
#[derive(Drop)]
pub(crate) struct Left {
    pub(crate) status: u8,
    pub(crate) sink: MemSink,
    pub(crate) notes: MemSink,
}

// The words of a command line, which stand here with a comma between two.
fn words_of(alloc: Global, line: &str) -> Result<Vec<String>, AllocError> {
    let mut words = Vec::new(alloc);
    for word in line.split(", ") {
        words.push(String::from_str(alloc, word)?)?;
    }
    Ok(words)
}

// A run for these words over these bytes, with this gate, whose calls of the numbers given fail.
fn run_with<G: Gate + Sync, R: Threads + Wait + Sync>(
    rt: &R,
    alloc: Global,
    words: &[String],
    bytes: &[u8],
    gate: &G,
    failing_takes: &[u64],
    failing_puts: &[u64],
) -> Result<Left, AllocError> {
    let mut source = MemSource::new(bytes.to_vec(alloc)?, 16, failing_takes.to_vec(alloc)?);
    let mut sink = MemSink::new(alloc, 4, failing_puts.to_vec(alloc)?);
    let mut notes = MemSink::new(alloc, 200, Vec::new(alloc));
    let outcome = run(rt, alloc, words, &mut source, &mut sink, &mut notes, gate);
    Ok(Left {
        status: outcome.status,
        sink,
        notes,
    })
}

fn run_failing<R: Threads + Wait + Sync>(
    rt: &R,
    alloc: Global,
    line: &str,
    bytes: &[u8],
    failing_takes: &[u64],
    failing_puts: &[u64],
) -> Result<Left, AllocError> {
    let words = words_of(alloc, line)?;
    run_with(
        rt,
        alloc,
        &words,
        bytes,
        &OpenGate,
        failing_takes,
        failing_puts,
    )
}

// What a run left is this.
pub(crate) fn check(rt: &impl Abort, left: &Left, status: u8, output: &[u8], note: &[u8]) {
    assert_eq!(rt; left.status, status);
    assert_eq!(rt; left.sink.bytes(), output);
    assert_eq!(rt; left.notes.bytes(), note);
}

// Each case is a command line and, behind an arrow, what the run prints for it, with a comma between two lines.
fn each_prints<R: Abort + Threads + Wait + Sync>(
    rt: &R,
    alloc: Global,
    bytes: &[u8],
    failing_takes: &[u64],
    cases: &str,
) -> Result<(), Fail> {
    for case in cases.lines() {
        let (line, wanted) = case.split_once(" -> ").ok_or("no arrow")?;
        let mut output = String::new(alloc);
        for printed in wanted.split(", ") {
            write!(output, "{printed}\n")?;
        }
        let left = run_failing(rt, alloc, line, bytes, failing_takes, &[])?;
        check(rt, &left, 0, output.as_bytes(), b"");
    }
    Ok(())
}

// A run that would read nothing ends with this status, and notes this.
fn is_refused<R: Abort + Threads + Wait + Sync>(
    rt: &R,
    alloc: Global,
    line: &str,
    status: u8,
    note: &str,
) -> Result<(), Fail> {
    let left = run_failing(rt, alloc, line, THREE, &[1], &[])?;
    let text = format!(in alloc; "mailring: {note}\n")?;
    check(rt, &left, status, b"", text.as_bytes());
    Ok(())
}

const ANSWERS_OVER_THREE: &str = "\
ring -> 2: 1 3
Hello -> 2: 1 2
alice -> 0:
hello !ring, alice -> 1: 2, 0:
(ring|bloom) !(subject hello) -> 1: 3
ring|other, !hello, !ring !hello -> 3: 1 2 3, 1: 3, 0:";

const ANSWER_OVER_LIST: &str =
    "ring overruns, length (paper|octet), records, b3duZXJzaGlwIHJlY29yZHMu -> 1: 1, 2: 1 2, 0:, 1: 2";

// Tried by hand: a run that always answers 7 fails at the first row.
#[test]
fn answers(rt: HostRuntime) -> Result<(), Fail> {
    each_prints(&rt, rt.alloc(), THREE, &[], ANSWERS_OVER_THREE)?;
    each_prints(&rt, rt.alloc(), LIST, &[], ANSWER_OVER_LIST)
}

// Mailboxes at the edges: none, empty lines alone, separators with and without an empty line before them, lines that end with CR LF,
// words of 32 and 33 bytes, and a word that comes twice.
#[test]
fn answers_at_the_edges(rt: HostRuntime) -> Result<(), Fail> {
    let alloc = rt.alloc();
    each_prints(&rt, alloc, b"", &[], "x -> 0:\n!x -> 0:")?;
    each_prints(&rt, alloc, b"\n\n", &[], "x -> 0:")?;
    let inside = b"From a\none\nFrom two\n";
    each_prints(&rt, alloc, inside, &[], "two -> 1: 1")?;
    let behind = b"From a\none\n\nFrom two\n";
    each_prints(&rt, alloc, behind, &[], "one -> 1: 1\n!one -> 1: 2")?;
    let returns = b"From a\r\nx y\r\n\r\nFrom b\r\nz";
    each_prints(&rt, alloc, returns, &[], "z -> 1: 2\ny -> 1: 1")?;
    let long = b"From a\nAAAAAAAAAAAAAAAAAAAAAAAAAAAAAAAA bbbbbbbbbbbbbbbbbbbbbbbbbbbbbbbbb\n";
    let word = "aaaaaaaaaaaaaaaaaaaaaaaaaaaaaaaa -> 1: 1";
    each_prints(&rt, alloc, long, &[], word)?;
    let twice = b"From a\nx x X\n\nFrom b\nx y\n\nFrom c\nz y\n";
    each_prints(&rt, alloc, twice, &[], "x !y | z -> 2: 1 3")
}

#[test]
fn refuses_what_is_no_mailbox(rt: HostRuntime) -> Result<(), Fail> {
    let left = run_failing(&rt, rt.alloc(), "ring", b"Hello\n", &[], &[])?;
    check(&rt, &left, 3, b"", b"mailring: input is not an mbox\n");
    Ok(())
}

#[test]
fn tells_of_a_failed_read(rt: HostRuntime) -> Result<(), Fail> {
    let left = run_failing(&rt, rt.alloc(), "ring", THREE, &[2], &[])?;
    check(&rt, &left, 1, b"", b"mailring: reading failed\n");
    Ok(())
}

#[test]
fn stops_at_a_failed_write(rt: HostRuntime) -> Result<(), Fail> {
    let left = run_failing(&rt, rt.alloc(), "ring", THREE, &[], &[2])?;
    check(&rt, &left, 6, b"2: 1", b"mailring: writing failed\n");
    let first = run_failing(&rt, rt.alloc(), "ring", THREE, &[], &[1, 2])?;
    check(&rt, &first, 6, b"", b"mailring: writing failed\n");
    assert_eq!(rt; first.sink.faults(), 1, "it isn't tried again");
    Ok(())
}

const REFUSED_QUERIES: &str = "\
ring, a | -> query 2: bad
 -> query 1: bad
a, b, c(, | -> query 3: bad
bbbbbbbbbbbbbbbbbbbbbbbbbbbbbbbbb -> query 1: long word
((((((((((((((((((((((((((((((((((a)))))))))))))))))))))))))))))))))) -> query 1: too deep
--, -a -> query 1: bad";

#[test]
fn says_which_query_is_refused(rt: HostRuntime) -> Result<(), Fail> {
    for case in REFUSED_QUERIES.lines() {
        let (line, note) = case.split_once(" -> ").ok_or("no arrow")?;
        is_refused(&rt, rt.alloc(), line, 5, note)?;
    }
    Ok(())
}

#[test]
fn takes_a_query_of_4096_bytes(rt: HostRuntime) -> Result<(), Fail> {
    let mut query = String::new(rt.alloc());
    for _ in 0..2048 {
        query.push_str("a ")?;
    }
    let left = run_failing(&rt, rt.alloc(), query.as_str(), THREE, &[], &[])?;
    check(&rt, &left, 0, b"0:\n", b"");
    query.push_str("a")?;
    is_refused(&rt, rt.alloc(), query.as_str(), 5, "query 1: too long")
}

// So many words on a command line, which would read nothing where it is faulty.
fn run_many<R: Threads + Wait + Sync>(
    rt: &R,
    alloc: Global,
    count: u64,
    failing_takes: &[u64],
) -> Result<Left, AllocError> {
    let mut words = Vec::new(alloc);
    for _ in 0..count {
        words.push(String::from_str(alloc, "a")?)?;
    }
    run_with(rt, alloc, &words, THREE, &OpenGate, failing_takes, &[])
}

const FAULTY_LINES: &str = "\
-x
--report
--report, --report, x
--ring, 0, x
--bits, 96, x
--workers, 65, x
--generate, 100001, x
--generate, x
--replay, x
--replay, --generate, 1";

#[test]
fn refuses_a_faulty_command_line(rt: HostRuntime) -> Result<(), Fail> {
    for line in FAULTY_LINES.lines() {
        let left = run_failing(&rt, rt.alloc(), line, THREE, &[1], &[])?;
        check(&rt, &left, 2, b"", USAGE);
    }
    Ok(())
}

#[test]
fn takes_1_to_64_queries(rt: HostRuntime) -> Result<(), Fail> {
    for count in [0, 65] {
        let left = run_many(&rt, rt.alloc(), count, &[1])?;
        check(&rt, &left, 2, b"", USAGE);
    }
    assert_eq!(rt; run_many(&rt, rt.alloc(), 64, &[])?.status, 0);
    Ok(())
}

const OPTIONS: &str = "\
--workers, 3, --, ring -> 2: 1 3
ring, --workers=064 -> 2: 1 3
--ring, 1, --bits, 64, ring -> 2: 1 3
--ring=4096, --bits=1024, --workers=1, ring, hello -> 2: 1 3, 2: 1 2
--report, ring -> 2: 1 3, commits 3 seals 0";

#[test]
fn reads_its_options(rt: HostRuntime) -> Result<(), Fail> {
    each_prints(&rt, rt.alloc(), THREE, &[], OPTIONS)
}

#[test]
fn no_messages_on_the_least_ring(rt: HostRuntime) -> Result<(), Fail> {
    let case = "--ring, 1, --bits, 64, --report, x, !x -> 0:, 0:, commits 0 seals 0";
    each_prints(&rt, rt.alloc(), b"", &[], case)
}

// The answer line goes out in two calls, and the report in five.
#[test]
fn stops_in_the_report(rt: HostRuntime) -> Result<(), Fail> {
    let left = run_failing(&rt, rt.alloc(), "--report, ring", THREE, &[], &[4])?;
    let sent = b"2: 1 3\ncomm";
    check(&rt, &left, 6, sent, b"mailring: writing failed\n");
    Ok(())
}

// Holds each worker's first arrival until two have arrived, for so many looks at most.
#[derive(Drop)]
struct MeetingGate {
    arrived: AtomicU64,
    met: AtomicBool,
}

impl Gate for MeetingGate {
    fn arrive(&self, worker: u64, _message: u64) {
        let bit = 1u64 << (worker % 64);
        let before = self.arrived.fetch_or(bit, Ordering::SeqCst);
        if before & bit != 0 {
            return;
        }
        for _ in 0..50_000_000 {
            if self.arrived.load(Ordering::SeqCst).count_ones() >= 2 {
                self.met.store(true, Ordering::SeqCst);
                return;
            }
            yield_now();
        }
    }
}

// One worker that does all would leave the other alone at the gate. Tried by hand: with one thread for all workers this test fails.
#[test]
fn two_workers_meet(rt: HostRuntime) -> Result<(), Fail> {
    let gate = MeetingGate {
        arrived: AtomicU64::new(0),
        met: AtomicBool::new(false),
    };
    let words = words_of(rt.alloc(), "--workers, 2, ring")?;
    let left = run_with(&rt, rt.alloc(), &words, THREE, &gate, &[], &[])?;
    check(&rt, &left, 0, b"2: 1 3\n", b"");
    assert!(rt; gate.met.load(Ordering::SeqCst));
    Ok(())
}

const MADE: &str = "\
--generate, 20, d7 -> 2: 7 17
--generate, 0, d7 -> 0:
--workers, 1, --generate=20, m7 d7 -> 1: 7
--generate, 2, w40503, gen -> 1: 1, 0:";

// The source would fail at its first call.
#[test]
fn makes_a_mailbox(rt: HostRuntime) -> Result<(), Fail> {
    each_prints(&rt, rt.alloc(), THREE, &[1], MADE)
}

// A replay of the script, whose calls of the numbers given fail, ends with this status, and leaves this.
fn replays<R: Abort + Threads + Wait + Sync>(
    rt: &R,
    alloc: Global,
    script: &[u8],
    failing: (&[u64], &[u64]),
    status: u8,
    output: &[u8],
    note: &[u8],
) -> Result<(), Fail> {
    let (takes, puts) = failing;
    let left = run_failing(rt, alloc, "--replay", script, takes, puts)?;
    check(rt, &left, status, output, note);
    Ok(())
}

const TRACE: &[u8] =
    b"0 start 0\n1 start 0\n1 stamped 1\n0 met 1\n0 start 0\n0 value 3 0\n0 done 0\nindex 1\nword 1 5\n";

#[test]
fn replays_a_script(rt: HostRuntime) -> Result<(), Fail> {
    let alloc = rt.alloc();
    replays(&rt, alloc, MEETS, (&[], &[]), 0, TRACE, b"")?;
    let unread = b"mailring: reading failed\n";
    replays(&rt, alloc, MEETS, (&[2], &[]), 1, b"", unread)?;
    let unwritten = b"mailring: writing failed\n";
    replays(&rt, alloc, MEETS, (&[], &[3]), 6, b"0 start ", unwritten)
}

// The script is refused at this line.
fn is_refused_at<R: Abort + Threads + Wait + Sync>(
    rt: &R,
    alloc: Global,
    script: &[u8],
    line: u64,
) -> Result<(), Fail> {
    let note = format!(in alloc; "mailring: script line {line} is not read\n")?;
    replays(rt, alloc, script, (&[], &[]), 9, b"", note.as_bytes())
}

#[test]
fn names_the_line_of_a_refused_script(rt: HostRuntime) -> Result<(), Fail> {
    let alloc = rt.alloc();
    let second = b"ring 4 bits 64 words 64 callers 1 life 100\n0 turn\n";
    is_refused_at(&rt, alloc, second, 2)?;
    let fifth = b"ring 4 bits 64 words 64 callers 1 life 100\n0 begin run\n\n# a turn\n0 turn\n";
    is_refused_at(&rt, alloc, fifth, 5)?;
    is_refused_at(&rt, alloc, THREE, 1)?;
    is_refused_at(&rt, alloc, b"", 1)
}
