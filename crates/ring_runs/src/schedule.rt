//! Schedules, replayed.
ghost use Rattle.std.specs.Prelude.{◌≡◌, ◌↔◌, ◌<◌, ◌≤◌, ◌++◌, length, IsTrue, OnOk};
ghost use Rattle.ring_worlds.specs.Runs.{MayOpen};
ghost use Rattle.ring_runs.specs.Trace.{InRange, IsSkipped, line_of, Replays};
ghost use Rattle.ring_runs.specs.Acts.{Answers};

use crate::acts::{Undone, act};
use crate::event::{Act, Event};
use crate::trace::{Happened, ReplayError, Trace, TraceLine, TraceLines};
use crate::world::World;
use ring_state::Setup;
use std::alloc::Global;
use tx_model::Memory;

/// Does the events in order, from the world before the first step, and tells what the requests were answered. The first
/// event that isn't allowed is named.
pub fn replay(alloc: Global, setup: &Setup, events: &[Event]) -> Result<Trace, ReplayError>
    requires open { MayOpen setup.now.shape setup.now.regions setup.now.first }
    requires some { 1 ≤ setup.now.callers }
    requires callers { setup.now.callers ≤ 64 }
    ensures { Replays setup.now events.now result }
{
    let Ok(mut world) = World::of(alloc, setup) else {
        return Err(ReplayError::Memory);
    };
    let mut lines = Vec::new(alloc);
    let mut prior = None;
    for at in 0..events.len() {
        let event = events[at];
        let what = match happen(&mut world, prior, event, at as u64) {
            Ok(what) => what,
            Err(error) => return Err(error),
        };
        match note(&mut lines, event.who, what) {
            Ok(()) => prior = Some(event),
            Err(_) => return Err(ReplayError::Memory),
        }
    }
    let index = world.index();
    Ok(Trace {
        lines: TraceLines::of(lines),
        index,
        words: world.into_words(),
    })
}

/// The line of what a caller was answered is the last one.
fn note(lines: &mut Vec<TraceLine>, who: u64, what: Option<Happened>) -> Result<(), Memory>
    ensures { OnOk result (lines.new.items ≡ lines.old.items ++ line_of who what) }
{
    let Some(what) = what else {
        return Ok(());
    };
    match lines.push(TraceLine { who, what }) {
        Ok(()) => Ok(()),
        Err(_) => Err(Memory),
    }
}

/// Does the event at this index, behind another one, and tells what is answered at once.
fn happen(
    world: &mut World,
    prior: Option<Event>,
    event: Event,
    at: u64,
) -> Result<Option<Happened>, ReplayError>
    ensures { Answers prior world.old event at world.new result }
{
    if event.who >= world.callers() {
        return Err(ReplayError::NoCaller { at });
    }
    if !in_range(world, event.act) {
        return Err(ReplayError::OutOfRange { at });
    }
    if is_skipped(world, prior, event) {
        return Ok(None);
    }
    match act(world, event.who, event.act) {
        Ok(what) => Ok(what),
        Err(Undone::NotNow) => Err(ReplayError::NotNow { at }),
        Err(Undone::Memory) => Err(ReplayError::Memory),
    }
}

/// The word or the region that the event names is there.
fn in_range(world: &World, act: Act) -> bool
    ensures { IsTrue result ↔ InRange world.now act }
{
    match act {
        Act::Read { addr }
        | Act::Write { addr, .. }
        | Act::Load { addr }
        | Act::Store { addr, .. } => addr < world.len(),
        Act::Seal { region } | Act::Publish { region } => {
            region < world.regions().as_slice().len() as u64
        }
        Act::Begin | Act::Stamp | Act::Turn | Act::Done | Act::GiveUp => true,
        Act::Step { .. } | Act::Run => true,
    }
}

/// It is a run directly behind a read of the same line that was answered from the write set.
fn is_skipped(world: &World, prior: Option<Event>, event: Event) -> bool
    requires { event.who < length world.now.processes }
    ensures { IsTrue result ↔ IsSkipped prior world.now event }
{
    match (event.act, prior) {
        (Act::Run, Some(read)) => {
            matches!(read.act, Act::Read { .. })
                && read.who == event.who
                && read.line == event.line
                && world.kind(event.who).is_none()
        }
        _ => false,
    }
}
