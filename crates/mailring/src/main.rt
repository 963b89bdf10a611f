//! `mailring QUERY...` tells of which messages of the mailbox on standard input each query holds, and `mailring --generate N QUERY...` of which
//! messages of a mailbox that is made of so many. `mailring --replay` replays the script on standard input, and prints its trace.
#![tactic(auto)]

#[cfg(test)]
mod limit_tests;
#[cfg(test)]
mod tests;

use mail_io::{ReaderSource, WriterSink};
use mail_search::{Status, run, write_note};
use mail_workers::OpenGate;
use std::io::ErrorKind;
use std::process::ExitCode;
use std::{env, io};

fn main(rt: HostRuntime) -> ExitCode {
    let mut source = ReaderSource::new(rt.stdin());
    let mut sink = WriterSink::new(rt.stdout());
    let mut notes = WriterSink::new(rt.stderr());
    ExitCode::from(match command_line(&rt) {
        Ok(words) => {
            run(
                &rt,
                rt.alloc(),
                &words,
                &mut source,
                &mut sink,
                &mut notes,
                &OpenGate,
            )
            .status
        }
        Err(status) => {
            write_note(&mut notes, status);
            status.number()
        }
    })
}

// The words after the program's name. One that isn't UTF-8 makes a faulty command line.
fn command_line(rt: &HostRuntime) -> Result<Vec<String>, Status> {
    match env::args(rt) {
        Ok(args) => args.skip(1).collect(rt.alloc()).map_err(|_| Status::Memory),
        Err(error) => Err(refused(error)),
    }
}

fn refused(error: io::Error) -> Status {
    match error.kind() {
        ErrorKind::OutOfMemory => Status::Memory,
        _ => Status::Usage,
    }
}
