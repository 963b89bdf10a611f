//! Scripts, replayed from their text: the trace of each, or the line at which it is refused.
use crate::examples::{MEETS, SEALS, WAITS, WORN};
use mail_io::{MemSink, MemSource};
use ring_replay::{Replayed, run_replay};
use ring_script::laws::scripts_open;
use ring_script::{parse_script, print_script};
use std::alloc::Global;
use std::process::Abort;
use std::test::Fail;

/// How replaying a script ended, and what was written.
fn replayed(alloc: Global, script: &[u8]) -> Result<(Replayed, MemSink), Fail> {
    let mut source = MemSource::new(script.to_vec(alloc)?, 64, Vec::new(alloc));
    let mut sink = MemSink::new(alloc, 64, Vec::new(alloc));
    let ended = run_replay(alloc, &mut source, &mut sink);
    Ok((ended, sink))
}

/// The script has this trace.
pub fn prints(rt: &impl Abort, alloc: Global, script: &[u8], trace: &[u8]) -> Result<(), Fail> {
    let (ended, sink) = replayed(alloc, script)?;
    assert_eq!(rt; ended, Replayed { status: 0, line: 0 });
    assert!(rt; sink.bytes() == trace);
    Ok(())
}

/// The script is refused at this line, and nothing is written.
pub fn is_refused(rt: &impl Abort, alloc: Global, script: &[u8], line: u64) -> Result<(), Fail> {
    let (ended, sink) = replayed(alloc, script)?;
    assert_eq!(rt; ended, Replayed { status: 9, line });
    assert!(rt; sink.bytes().is_empty());
    Ok(())
}

// A source whose first call fails, and a sink whose first call does.
#[test]
fn faults_end_a_replay(rt: HostRuntime) -> Result<(), Fail> {
    let alloc = rt.alloc();
    let mut bad = MemSource::new(MEETS.to_vec(alloc)?, 64, vec![in alloc; 1]?);
    let mut sink = MemSink::new(alloc, 64, Vec::new(alloc));
    let unread = run_replay(alloc, &mut bad, &mut sink);
    assert_eq!(rt; unread, Replayed { status: 1, line: 0 });
    let mut source = MemSource::new(MEETS.to_vec(alloc)?, 64, Vec::new(alloc));
    let mut full = MemSink::new(alloc, 64, vec![in alloc; 1]?);
    let unwritten = run_replay(alloc, &mut source, &mut full);
    assert_eq!(rt; unwritten, Replayed { status: 6, line: 0 });
    Ok(())
}

/// What the script says is printed as the same text.
fn is_printed_again(rt: &impl Abort, alloc: Global, script: &[u8]) -> Result<(), Fail> {
    scripts_open();
    match parse_script(alloc, script) {
        Ok((setup, events)) => {
            let printed = print_script(alloc, &setup, &events)?;
            assert!(rt; printed.as_slice() == script);
            Ok(())
        }
        Err(_) => Err(Fail::new("no script")),
    }
}

const EVERY_LINE: &[u8] = b"\
ring 4096 bits 1024 words 65536 callers 64 life 1152921504606846976
region 8 16 8
region 9 24 1
word 8 1
word 65535 18446744073709551615
0 begin run
0 read 1
0 step 1000000
0 run
0 write 1 5
0 stamp run
0 turn run
0 done
0 give-up
0 seal 0
0 publish 1
0 load 3 run
0 store 3 9 run
63 run
";

#[test]
fn scripts_are_printed_again(rt: HostRuntime) -> Result<(), Fail> {
    for script in [MEETS, WORN, WAITS, SEALS, EVERY_LINE] {
        is_printed_again(&rt, rt.alloc(), script)?;
    }
    Ok(())
}

/// Adds lines that write 1 to each of the words before this one, behind this beginning of each.
fn write_each(text: &mut String, before: &str, words: u64) -> Result<(), Fail> {
    for addr in 0..words {
        write!(text, "{before} {addr} 1\n")?;
    }
    Ok(())
}

// 256 words have all 64 places of the signature, and an attempt writes to no more.
#[test]
fn a_full_signature_stops_a_read_of_a_word_that_nobody_wrote(rt: HostRuntime) -> Result<(), Fail> {
    let mut script = String::new(rt.alloc());
    script.push_str("ring 4 bits 64 words 512 callers 2 life 9\n0 begin run\n1 begin run\n")?;
    write_each(&mut script, "1 write", 257)?;
    script.push_str("1 stamp run\n1 turn run\n0 read 300 run\n")?;
    let mut trace = String::new(rt.alloc());
    trace.push_str("0 start 0\n1 start 0\n1 full\n1 stamped 1\n1 completed 1\n0 met 1\nindex 1\n")?;
    write_each(&mut trace, "word", 256)?;
    prints(&rt, rt.alloc(), script.as_bytes(), trace.as_bytes())
}

// The first line of a script is bad, or there is none.
#[test]
fn a_first_line_is_refused(rt: HostRuntime) -> Result<(), Fail> {
    for script in [
        b"".as_slice(),
        b"# a\n",
        b"ring 0 bits 64 words 8 callers 1 life 3\n",
        b"ring 4 bits 96 words 8 callers 1 life 3\n",
    ] {
        is_refused(&rt, rt.alloc(), script, 1)?;
    }
    Ok(())
}

/// Behind a first line, the lines are refused at the last one.
fn last_is_refused(rt: &impl Abort, alloc: Global, lines: &[&str]) -> Result<(), Fail> {
    let mut script = String::new(alloc);
    script.push_str("ring 4 bits 64 words 64 callers 1 life 3\n")?;
    for line in lines {
        write!(script, "{line}\n")?;
    }
    is_refused(rt, alloc, script.as_bytes(), lines.len() as u64 + 1)
}

#[test]
fn a_further_line_is_refused(rt: HostRuntime) -> Result<(), Fail> {
    for lines in [
        [" 0 begin"].as_slice(),
        &["region 8 16 8", "region 9 23 2"],
        &["region 8 16 8", "word 8 2"],
        &["0 begin", "word 1 1"],
        &["0 step 0"],
        &["0 begin walk"],
        &["word 1 100000000000000000000"],
        &["1 begin"],
        &["0 read 64"],
        &["0 turn"],
    ] {
        last_is_refused(&rt, rt.alloc(), lines)?;
    }
    Ok(())
}
