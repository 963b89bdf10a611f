//! The text of a trace.
ghost use Rattle.std.specs.Prelude.{◌≡◌, ◌++◌, ◌∷◌, [], decimal, length, string_bytes, IfOk, OnOk};
ghost use Rattle.ring_script.specs.Printed.{with_numbers, numbers_line, later_line, line_text, lines_text, word_text, words_text, printed};

use ring_core::Later;
use ring_runs::{Happened, Trace, TraceLine};
use std::alloc::Global;
use tx_model::Memory;

/// The text of a trace: a line for each answer, the index, and each word of the memory that isn't 0.
pub fn print_trace(alloc: Global, trace: &Trace) -> Result<Vec<u8>, Memory>
    ensures { IfOk result (λ text. text.items ≡ printed trace.now) }
{
    let mut text = String::new(alloc);
    write_lines(&mut text, trace.lines.as_slice())?;
    write_numbers_line(&mut text, "index", &[trace.index])?;
    write_words(&mut text, trace.words.as_slice())?;
    Ok(text.into_bytes())
}

fn write_lines(text: &mut String, lines: &[TraceLine]) -> Result<(), Memory>
    ensures { OnOk result (string_bytes text.new ≡ string_bytes text.old ++ lines_text lines.now) }
{
    for line in lines {
        write_line(text, line)?;
    }
    Ok(())
}

/// Each word that isn't 0, with its address.
pub fn write_words(text: &mut String, words: &[u64]) -> Result<(), Memory>
    ensures { OnOk result (string_bytes text.new ≡ string_bytes text.old ++ words_text words.now (length words.now)) }
{
    for addr in 0..words.len() {
        write_word(text, addr as u64, words[addr])?;
    }
    Ok(())
}

/// A word of the memory, where it isn't 0.
fn write_word(text: &mut String, addr: u64, value: u64) -> Result<(), Memory>
    ensures { OnOk result (string_bytes text.new ≡ string_bytes text.old ++ word_text addr value) }
{
    if value == 0 {
        return Ok(());
    }
    write_numbers_line(text, "word", &[addr, value])
}

fn write_line(text: &mut String, line: &TraceLine) -> Result<(), Memory>
    ensures { OnOk result (string_bytes text.new ≡ string_bytes text.old ++ line_text line.now) }
{
    let who = line.who;
    if write!(text, "{who} ").is_err() {
        return Err(Memory);
    }
    match line.what {
        Happened::Start { start } => write_numbers_line(text, "start", &[start]),
        Happened::Value { addr, value } => write_numbers_line(text, "value", &[addr, value]),
        Happened::Met { stamp } => write_numbers_line(text, "met", &[stamp]),
        Happened::Overrun { stamp, seen } => write_numbers_line(text, "overrun", &[stamp, seen]),
        Happened::Full => write_numbers_line(text, "full", &[]),
        Happened::Stamped { stamp } => write_numbers_line(text, "stamped", &[stamp]),
        Happened::Later { later } => write_later(text, later),
        Happened::Completed { stamp } => write_numbers_line(text, "completed", &[stamp]),
        Happened::Worn { index } => write_numbers_line(text, "worn", &[index]),
        Happened::Done { stamp } => write_numbers_line(text, "done", &[stamp]),
        Happened::Loaded { addr, value } => write_numbers_line(text, "loaded", &[addr, value]),
        Happened::Stored { addr, value } => write_numbers_line(text, "stored", &[addr, value]),
    }
}

fn write_later(text: &mut String, later: Later) -> Result<(), Memory>
    ensures { OnOk result (string_bytes text.new ≡ string_bytes text.old ++ later_line later) }
{
    match later {
        Later::Lost { index } => write_numbers_line(text, "later lost", &[index]),
        Later::Unpublished { stamp, tag } => {
            write_numbers_line(text, "later unpublished", &[stamp, tag])
        }
        Later::SlotBusy { stamp, tag } => write_numbers_line(text, "later slot", &[stamp, tag]),
        Later::Order { stamp, tag } => write_numbers_line(text, "later order", &[stamp, tag]),
    }
}

/// A name, each number behind a space, and a line feed.
pub fn write_numbers_line(text: &mut String, name: &str, numbers: &[u64]) -> Result<(), Memory>
    ensures { OnOk result (string_bytes text.new ≡ string_bytes text.old ++ numbers_line name.now numbers.now) }
{
    if write!(text, "{name}").is_err() {
        return Err(Memory);
    }
    write_numbers(text, numbers)?;
    match text.push('\n') {
        Ok(()) => Ok(()),
        Err(_) => Err(Memory),
    }
}

pub fn write_numbers(text: &mut String, numbers: &[u64]) -> Result<(), Memory>
    ensures { OnOk result (string_bytes text.new ≡ string_bytes text.old ++ with_numbers numbers.now) }
{
    for number in numbers {
        write_number(text, *number)?;
    }
    Ok(())
}

/// The number behind a space.
fn write_number(text: &mut String, number: u64) -> Result<(), Memory>
    ensures { OnOk result (string_bytes text.new ≡ string_bytes text.old ++ 32 ∷ decimal number) }
{
    match write!(text, " {number}") {
        Ok(()) => Ok(()),
        Err(_) => Err(Memory),
    }
}
