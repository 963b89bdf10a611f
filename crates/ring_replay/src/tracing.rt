//! The text of the trace of a script.
ghost use Rattle.std.specs.Prelude.{◌≡◌, ◌<◌, ◌≤◌, ℕ, length, slice_get, None, Some};
ghost use Rattle.ring_runs.specs.declared.event.Event.{Event as EventValue};
ghost use Rattle.ring_worlds.specs.Runs.{MayOpen};
ghost use Rattle.ring_replay.specs.Stops.{event_index, stop_of_script};
ghost use Rattle.ring_replay.specs.Traces.{Answers, Traces};

use crate::stop::ReplayStop;
use ring_runs::{Event, ReplayError, Setup, replay};
use ring_script::laws::scripts_open;
use ring_script::{ScriptError, parse_script, print_trace};
use std::alloc::Global;

/// The text of the trace of the script that the text is.
pub fn trace_of(alloc: Global, text: &[u8]) -> Result<Vec<u8>, ReplayStop>
    ensures { Traces text.now result }
{
    scripts_open();
    match parse_script(alloc, text) {
        Ok((setup, events)) => answers_of(alloc, &setup, &events),
        Err(error) => Err(stop_of_script(error)),
    }
}

fn stop_of_script(error: ScriptError) -> ReplayStop
    ensures { result ≡ stop_of_script error }
{
    match error {
        ScriptError::BadLine { line } => ReplayStop::BadScript { line },
        ScriptError::Memory => ReplayStop::Memory,
    }
}

/// The text of the trace of these events.
fn answers_of(alloc: Global, setup: &Setup, events: &[Event]) -> Result<Vec<u8>, ReplayStop>
    requires open { MayOpen setup.now.shape setup.now.regions setup.now.first }
    requires some { 1 ≤ setup.now.callers }
    requires callers { setup.now.callers ≤ 64 }
    ensures { Answers setup.now events.now result }
{
    match replay(alloc, setup, events) {
        Ok(trace) => match print_trace(alloc, &trace) {
            Ok(text) => Ok(text),
            Err(_) => Err(ReplayStop::Memory),
        },
        Err(error) => Err(stop_of_event(events, error)),
    }
}

/// Why events aren't replayed, by the line of the event that is refused.
fn stop_of_event(events: &[Event], error: ReplayError) -> ReplayStop
    requires { (at : ℕ) → event_index error ≡ Some at → at < length events.now }
    ensures refused { (at : ℕ) (event : EventValue) → event_index error ≡ Some at → slice_get events.now at ≡ Some event
        → result ≡ ReplayStop.BadScript event.line }
    ensures memory { event_index error ≡ None → result ≡ ReplayStop.Memory }
{
    match event_index(error) {
        Some(at) => ReplayStop::BadScript {
            line: events[at as usize].line,
        },
        None => ReplayStop::Memory,
    }
}

/// The index of the event that is refused.
fn event_index(error: ReplayError) -> Option<u64>
    ensures { result ≡ event_index error }
{
    match error {
        ReplayError::NoCaller { at } => Some(at),
        ReplayError::OutOfRange { at } => Some(at),
        ReplayError::NotNow { at } => Some(at),
        ReplayError::Memory => None,
    }
}
