//! A script replayed: read from a source, and its trace written to a sink.
ghost use Rattle.ring_replay.specs.Outcome.{IsReplayed, IsReplayedBy, sink_seen, source_seen};

use crate::stop::ReplayStop;
use crate::tracing::trace_of;
use mail_io::{Sink, Source, read_all, write_all};
use std::alloc::Global;

/// The most bytes of a script that are taken.
const INPUT_LIMIT: u64 = 67_108_864;

/// How replaying a script ended: the exit status, and the line that is refused at status 9, which is 0 at any other.
#[derive(Clone, Copy, Debug, PartialEq, Eq)]
pub struct Replayed {
    pub status: u8,
    pub line: u64,
}

/// Replays the script that the source has, and writes its trace to the sink.
pub fn run_replay<S: Source, K: Sink>(alloc: Global, source: &mut S, sink: &mut K) -> Replayed
    ensures { IsReplayedBy K.offered (source_seen S.left S.faults source.old) (source_seen S.left S.faults source.new)
        (sink_seen K.held K.faults K.wants sink.old) (sink_seen K.held K.faults K.wants sink.new) result.status result.line }
{
    match replay_script(alloc, source, sink) {
        Ok(()) => Replayed { status: 0, line: 0 },
        Err(stop) => Replayed {
            status: stop.number(),
            line: stop.line(),
        },
    }
}

/// The same, by what stopped it. No byte is written before all events are done.
pub fn replay_script<S: Source, K: Sink>(
    alloc: Global,
    source: &mut S,
    sink: &mut K,
) -> Result<(), ReplayStop>
    ensures { IsReplayed K.offered (source_seen S.left S.faults source.old) (source_seen S.left S.faults source.new)
        (sink_seen K.held K.faults K.wants sink.old) (sink_seen K.held K.faults K.wants sink.new) result }
{
    let text = read_all(alloc, source, INPUT_LIMIT)?;
    let trace = trace_of(alloc, &text)?;
    write_all(sink, &trace)?;
    Ok(())
}
