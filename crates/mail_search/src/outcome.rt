//! The outcome of a run.
ghost use Rattle.std.specs.Prelude.{◌≡◌};
ghost use Rattle.mail_answers.specs.Sending.{sink_seen};
ghost use Rattle.mail_search.specs.Notes.{IsNoted};
ghost use Rattle.mail_search.specs.Statuses.{ending, handed_back, number_of};

use crate::note::write_note;
use crate::status::Status;
use mail_io::Sink;
use ring_words::Closed;
use tx_heap::MailSense;

/// How a run ended.
#[derive(Drop)]
pub struct Outcome {
    /// The exit status.
    pub status: u8,
    /// The ring with the index, where queries were answered.
    pub closed: Option<Closed<MailSense>>,
}

/// The outcome of a run that ended so. Its note is written.
pub fn outcome_of<E: Sink>(
    notes: &mut E,
    ended: Result<Option<Closed<MailSense>>, Status>,
) -> Outcome
    ensures number { result.status ≡ number_of (ending ended) }
    ensures closed { result.closed ≡ handed_back ended }
    ensures noted { IsNoted E.offered (sink_seen E.held E.faults E.wants notes.old) (sink_seen E.held E.faults E.wants notes.new) (ending ended) }
{
    match ended {
        Ok(closed) => noted(notes, Status::Done, closed),
        Err(status) => noted(notes, status, None),
    }
}

fn noted<E: Sink>(notes: &mut E, status: Status, closed: Option<Closed<MailSense>>) -> Outcome
    ensures number { result.status ≡ number_of status }
    ensures closed { result.closed ≡ closed }
    ensures noted { IsNoted E.offered (sink_seen E.held E.faults E.wants notes.old) (sink_seen E.held E.faults E.wants notes.new) status }
{
    write_note(notes, status);
    Outcome {
        status: status.number(),
        closed,
    }
}
