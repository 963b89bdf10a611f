//! The notes for the person who ran the program.
ghost use Rattle.std.specs.Prelude.{◌≡◌, ◌≤◌, ◌+◌, ◌++◌, length};
ghost use Rattle.arrayvec.specs.ArrayVec.{array_vec_len};
ghost use Rattle.mail_answers.specs.Sending.{sink_seen};
ghost use Rattle.mail_search.specs.Notes.{note_of, query_note, reason_of, script_note, HasNote, IsNoted, IsFixedNote};

use crate::status::Status;
use arrayvec::ArrayVec;
use itoa::Buffer;
use mail_io::{Sink, write_all};
use mail_query::QueryError;

/// Writes the note as one piece. A fault of the notes changes nothing else.
pub fn write_note<E: Sink>(notes: &mut E, status: Status)
    ensures { IsNoted E.offered (sink_seen E.held E.faults E.wants notes.old) (sink_seen E.held E.faults E.wants notes.new) status }
{
    match status {
        Status::BadQuery { query, error } => send(notes, query_note(query, error).as_slice()),
        Status::BadScript { line } => send(notes, script_note(line).as_slice()),
        _ => send(notes, fixed_note(status)),
    }
}

fn send<E: Sink>(notes: &mut E, note: &[u8])
    ensures { HasNote E.offered (sink_seen E.held E.faults E.wants notes.old) (sink_seen E.held E.faults E.wants notes.new) note.now }
{
    let _ = write_all(notes, note);
}

// The line that says how a run ended, and nothing where it was done. The notes of a refused query and script aren't among them.
fn fixed_note(status: Status) -> &'static [u8]
    ensures { IsFixedNote status result.now }
{
    match status {
        Status::Done | Status::BadQuery { .. } | Status::BadScript { .. } => b"",
        Status::ReadFault => b"mailring: reading failed\n",
        Status::Usage => {
            b"mailring: usage: mailring [--workers N] [--ring R] [--bits B] [--report] [--generate N] QUERY... or mailring --replay\n"
        }
        Status::NotMbox => b"mailring: input is not an mbox\n",
        Status::TooLarge => b"mailring: input is larger than 67108864 bytes\n",
        Status::WriteFault => b"mailring: writing failed\n",
        Status::Memory => b"mailring: no memory\n",
        Status::TooManyMessages => b"mailring: too many messages\n",
        Status::TooManyPostings => b"mailring: too many postings\n",
    }
}

// The line for a refused query, which takes no memory.
fn query_note(query: u8, error: QueryError) -> ArrayVec<u8, 60>
    ensures { result.items ≡ query_note query error }
{
    let mut note = ArrayVec::new();
    let mut digits = Buffer::new();
    push_text(&mut note, b"mailring: query ");
    push_text(&mut note, digits.format(query).as_bytes());
    push_text(&mut note, reason_of(error));
    note
}

// The line for a refused script.
fn script_note(line: u64) -> ArrayVec<u8, 60>
    ensures { result.items ≡ script_note line }
{
    let mut note = ArrayVec::new();
    let mut digits = Buffer::new();
    push_text(&mut note, b"mailring: script line ");
    push_text(&mut note, digits.format(line).as_bytes());
    push_text(&mut note, b" is not read\n");
    note
}

fn reason_of(error: QueryError) -> &'static [u8]
    ensures text { result.now ≡ reason_of error }
    ensures short { length result.now ≤ 12 }
{
    match error {
        QueryError::Bad => b": bad\n",
        QueryError::LongWord => b": long word\n",
        QueryError::Deep => b": too deep\n",
        QueryError::Long => b": too long\n",
        QueryError::Memory => b": no memory\n",
    }
}

fn push_text(note: &mut ArrayVec<u8, 60>, text: &[u8])
    requires { array_vec_len note.old + length text.now ≤ 60 }
    ensures text { note.new.items ≡ note.old.items ++ text.now }
    ensures len { array_vec_len note.new ≡ array_vec_len note.old + length text.now }
{
    for byte in text {
        note.push(*byte);
    }
}
