//! The text of a script.
ghost use Rattle.std.specs.Prelude.{◌≡◌, ◌<◌, ◌++◌, [], ◌∷◌, length, string_bytes, IfOk, OnOk, MatchOption};
ghost use Rattle.ring_sig.specs.Signature.{IsWordCount};
ghost use Rattle.ring_script.specs.Written.{named, ring_text, region_text, regions_text, is_run_by, asked_of, name_text, act_text, run_text, asked_text, events_text, script_text};

use crate::name::may_run;
use crate::printer::{write_numbers, write_numbers_line, write_words};
use crate::reading::{Asked, Request};
use ring_runs::{Act, Event, Setup};
use std::alloc::Global;
use tx_model::{Memory, Region};

/// The text of a script that says the setup and the events: each request and the run on its line are printed together.
pub fn print_script(alloc: Global, setup: &Setup, events: &[Event]) -> Result<Vec<u8>, Memory>
    requires { IsWordCount setup.now.shape.sig_words }
    ensures { IfOk result (λ text. text.items ≡ script_text setup.now events.now) }
{
    let mut text = String::new(alloc);
    write_ring(&mut text, setup)?;
    write_regions(&mut text, setup.regions.as_slice())?;
    write_words(&mut text, setup.first.as_slice())?;
    write_events(&mut text, events)?;
    Ok(text.into_bytes())
}

/// The first line.
fn write_ring(text: &mut String, setup: &Setup) -> Result<(), Memory>
    requires { IsWordCount setup.now.shape.sig_words }
    ensures { OnOk result (string_bytes text.new ≡ string_bytes text.old ++ ring_text setup.now) }
{
    write_named(text, "ring", setup.shape.ring)?;
    write_named(text, " bits", 64 * setup.shape.sig_words)?;
    write_named(text, " words", setup.shape.heap)?;
    write_named(text, " callers", setup.callers)?;
    write_named(text, " life", setup.shape.life)?;
    end_line(text)
}

/// A number behind its name.
fn write_named(text: &mut String, name: &str, number: u64) -> Result<(), Memory>
    ensures { OnOk result (string_bytes text.new ≡ string_bytes text.old ++ named name.now number) }
{
    match write!(text, "{name} {number}") {
        Ok(()) => Ok(()),
        Err(_) => Err(Memory),
    }
}

fn end_line(text: &mut String) -> Result<(), Memory>
    ensures { OnOk result (string_bytes text.new ≡ string_bytes text.old ++ 10 ∷ []) }
{
    match text.push('\n') {
        Ok(()) => Ok(()),
        Err(_) => Err(Memory),
    }
}

fn write_regions(text: &mut String, regions: &[Region]) -> Result<(), Memory>
    ensures { OnOk result (string_bytes text.new ≡ string_bytes text.old ++ regions_text regions.now) }
{
    for region in regions {
        write_region(text, *region)?;
    }
    Ok(())
}

fn write_region(text: &mut String, region: Region) -> Result<(), Memory>
    ensures { OnOk result (string_bytes text.new ≡ string_bytes text.old ++ region_text region) }
{
    write_numbers_line(text, "region", &[region.gate, region.base, region.len])
}

fn write_events(text: &mut String, events: &[Event]) -> Result<(), Memory>
    ensures { OnOk result (string_bytes text.new ≡ string_bytes text.old ++ events_text events.now) }
{
    let mut rest = events;
    while let Some((asked, behind)) = first_asked(rest) {
        write_asked(text, asked)?;
        rest = behind;
    }
    Ok(())
}

/// What the first line asks, and the events behind it.
fn first_asked(events: &[Event]) -> Option<(Asked, &[Event])>
    ensures asked { MatchOption result (asked_of events.now ≡ []) (λ r. asked_of events.now ≡ r.0 ∷ asked_of r.1.now) }
    ensures shorter { MatchOption result (asked_of events.now ≡ []) (λ r. length r.1.now < length events.now) }
{
    let event = *events.first()?;
    let request = Request {
        who: event.who,
        act: event.act,
    };
    let runs = events.len() > 1 && is_run_by(event, events[1]);
    let behind = if runs { &events[2..] } else { &events[1..] };
    Some((Asked { request, runs }, behind))
}

/// The next event runs this one's request, on the same line.
fn is_run_by(event: Event, next: Event) -> bool
    ensures { result ≡ is_run_by event next }
{
    may_run(event.act)
        && matches!(next.act, Act::Run)
        && next.who == event.who
        && next.line == event.line
}

fn write_asked(text: &mut String, asked: Asked) -> Result<(), Memory>
    ensures { OnOk result (string_bytes text.new ≡ string_bytes text.old ++ asked_text asked) }
{
    let who = asked.request.who;
    if write!(text, "{who} ").is_err() {
        return Err(Memory);
    }
    write_act(text, asked.request.act)?;
    write_run(text, asked.runs)?;
    end_line(text)
}

fn write_run(text: &mut String, runs: bool) -> Result<(), Memory>
    ensures { OnOk result (string_bytes text.new ≡ string_bytes text.old ++ run_text runs) }
{
    if !runs {
        return Ok(());
    }
    match text.push_str(" run") {
        Ok(()) => Ok(()),
        Err(_) => Err(Memory),
    }
}

fn write_act(text: &mut String, act: Act) -> Result<(), Memory>
    ensures { OnOk result (string_bytes text.new ≡ string_bytes text.old ++ act_text act) }
{
    match act {
        Act::Begin => write_name(text, "begin", &[]),
        Act::Read { addr } => write_name(text, "read", &[addr]),
        Act::Write { addr, value } => write_name(text, "write", &[addr, value]),
        Act::Stamp => write_name(text, "stamp", &[]),
        Act::Turn => write_name(text, "turn", &[]),
        Act::Done => write_name(text, "done", &[]),
        Act::GiveUp => write_name(text, "give-up", &[]),
        Act::Seal { region } => write_name(text, "seal", &[region]),
        Act::Publish { region } => write_name(text, "publish", &[region]),
        Act::Load { addr } => write_name(text, "load", &[addr]),
        Act::Store { addr, value } => write_name(text, "store", &[addr, value]),
        Act::Step { count } => write_name(text, "step", &[count]),
        Act::Run => write_name(text, "run", &[]),
    }
}

/// A name, and each number behind a space.
fn write_name(text: &mut String, name: &str, numbers: &[u64]) -> Result<(), Memory>
    ensures { OnOk result (string_bytes text.new ≡ string_bytes text.old ++ name_text name.now numbers.now) }
{
    if write!(text, "{name}").is_err() {
        return Err(Memory);
    }
    write_numbers(text, numbers)
}
