//! What one event does to a world.
ghost use Rattle.std.specs.Prelude.{◌≡◌, ◌<◌, length};
ghost use Rattle.ring_worlds.specs.Calls.{process_at};
ghost use Rattle.ring_runs.specs.declared.event.Act.TheVariants as act;
ghost use Rattle.ring_runs.specs.Trace.{InRange, told};
ghost use Rattle.ring_runs.specs.Acts.{Acts, StepsOnce};

use crate::event::Act;
use crate::trace::Happened;
use crate::world::World;
use ring_core::Progress;
use ring_worlds::laws::{next_step, steps_shorten};
use tx_model::{PassState, Stop};

/// Why an event isn't done.
#[derive(Clone, Copy, Drop)]
pub(crate) enum Undone {
    /// The caller may not do this now.
    NotNow,
    /// Want of memory.
    Memory,
}

/// Does what the event asks of the caller, where it may be asked for it.
pub(crate) fn act(world: &mut World, who: u64, act: Act) -> Result<Option<Happened>, Undone>
    requires here { who < length world.old.processes }
    requires range { InRange world.old act }
    ensures { Acts world.old who act world.new result }
{
    match act {
        Act::Begin => begin(world, who),
        Act::Read { addr } => read(world, who, addr),
        Act::Write { addr, value } => write(world, who, addr, value),
        Act::Stamp => stamp(world, who),
        Act::Turn => turn(world, who),
        Act::Done => done(world, who),
        Act::GiveUp => give_up(world, who),
        Act::Seal { .. } | Act::Publish { .. } | Act::Load { .. } | Act::Store { .. } => {
            Err(Undone::NotNow)
        }
        Act::Step { count } => steps(world, who, count),
        Act::Run => run(world, who),
    }
}

fn begin(world: &mut World, who: u64) -> Result<Option<Happened>, Undone>
    requires { who < length world.old.processes }
    ensures { Acts world.old who act.Begin world.new result }
{
    if !world.is_at(who, PassState::Idle) {
        return Err(Undone::NotNow);
    }
    world.begin(who);
    Ok(None)
}

fn read(world: &mut World, who: u64, addr: u64) -> Result<Option<Happened>, Undone>
    requires here { who < length world.old.processes }
    requires range { addr < world.old.shape.heap }
    ensures { Acts world.old who (act.Read addr) world.new result }
{
    if !world.is_between(who) || !world.may_read(who, addr) {
        return Err(Undone::NotNow);
    }
    match world.read(who, addr) {
        Some(value) => Ok(Some(Happened::Value { addr, value })),
        None => Ok(None),
    }
}

fn write(world: &mut World, who: u64, addr: u64, value: u64) -> Result<Option<Happened>, Undone>
    requires here { who < length world.old.processes }
    requires range { addr < world.old.shape.heap }
    ensures { Acts world.old who (act.Write addr value) world.new result }
{
    if !world.is_between(who) || !world.may_write(who, addr, value) {
        return Err(Undone::NotNow);
    }
    match world.write(who, addr, value) {
        Ok(()) => Ok(None),
        Err(_) => Ok(Some(Happened::Full)),
    }
}

fn stamp(world: &mut World, who: u64) -> Result<Option<Happened>, Undone>
    requires { who < length world.old.processes }
    ensures { Acts world.old who act.Stamp world.new result }
{
    if !world.is_between(who) || world.local(who).writes().len() == 0 {
        return Err(Undone::NotNow);
    }
    world.stamp(who);
    Ok(None)
}

fn turn(world: &mut World, who: u64) -> Result<Option<Happened>, Undone>
    requires { who < length world.old.processes }
    ensures { Acts world.old who act.Turn world.new result }
{
    if !world.is_at(who, PassState::Stamped) {
        return Err(Undone::NotNow);
    }
    world.turn(who);
    Ok(None)
}

fn done(world: &mut World, who: u64) -> Result<Option<Happened>, Undone>
    requires { who < length world.old.processes }
    ensures { Acts world.old who act.Done world.new result }
{
    if !world.is_between(who) || world.local(who).writes().len() > 0 {
        return Err(Undone::NotNow);
    }
    let stamp = world.done(who);
    Ok(Some(Happened::Done { stamp }))
}

fn give_up(world: &mut World, who: u64) -> Result<Option<Happened>, Undone>
    requires { who < length world.old.processes }
    ensures { Acts world.old who act.GiveUp world.new result }
{
    if !world.is_between(who) {
        return Err(Undone::NotNow);
    }
    world.give_up(who);
    Ok(None)
}

/// Makes so many steps of the caller's open request, of which only the last may end it.
fn steps(world: &mut World, who: u64, count: u64) -> Result<Option<Happened>, Undone>
    requires { who < length world.old.processes }
    ensures { Acts world.old who (act.Step count) world.new result }
{
    next_step();
    for made in 0..count {
        match step(world, who) {
            Ok(None) => {}
            Ok(Some(what)) if made + 1 == count => return Ok(Some(what)),
            Ok(Some(_)) => return Err(Undone::NotNow),
            Err(undone) => return Err(undone),
        }
    }
    Ok(None)
}

/// Makes steps of the caller's open request until it has ended.
fn run(world: &mut World, who: u64) -> Result<Option<Happened>, Undone>
    requires { who < length world.old.processes }
    ensures { Acts world.old who act.Run world.new result }
{
    next_step();
    while world.kind(who).is_some() {
        match step(world, who) {
            Ok(None) => {}
            Ok(Some(what)) => return Ok(Some(what)),
            Err(undone) => return Err(undone),
        }
    }
    Err(Undone::NotNow)
}

/// Makes one step of the caller's open request, and tells what it is answered.
fn step(world: &mut World, who: u64) -> Result<Option<Happened>, Undone>
    requires { who < length world.old.processes }
    ensures { StepsOnce world.old who world.new result }
{
    steps_shorten();
    world.is_sound();
    if world.kind(who).is_none() {
        return Err(Undone::NotNow);
    }
    let asked = world.asked(who);
    match world.step(who) {
        Ok(progress) => Ok(told(asked, progress)),
        Err(_) => Err(Undone::Memory),
    }
}

/// The answer of a request whose read, if it is one, asked for this address.
fn told(asked: Option<u64>, progress: Progress) -> Option<Happened>
    ensures { result ≡ told asked progress }
{
    match progress {
        Progress::Going => None,
        Progress::Started { start } => Some(Happened::Start { start }),
        Progress::Value { value } => match asked {
            Some(addr) => Some(Happened::Value { addr, value }),
            None => None,
        },
        Progress::Stopped {
            stop: Stop::Met { stamp },
        } => Some(Happened::Met { stamp }),
        Progress::Stopped {
            stop: Stop::Overrun { stamp, seen },
        } => Some(Happened::Overrun { stamp, seen }),
        Progress::Stamped { stamp } => Some(Happened::Stamped { stamp }),
        Progress::Later { later } => Some(Happened::Later { later }),
        Progress::Completed { stamp } => Some(Happened::Completed { stamp }),
        Progress::Worn { index } => Some(Happened::Worn { index }),
    }
}
