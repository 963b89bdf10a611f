//! The mailbox, built in one pass into a list of its size.
ghost use Rattle.std.specs.Prelude.{◌≡◌, ◌≤◌, ◌<◌, ◌*◌, ◌++◌, ◌∷◌, [], length, decimal, IfOk, OnOk};
ghost use Rattle.mbox_cut.specs.Exactly.{ComesExactly};
ghost use Rattle.mail_gen.specs.Generator.{line_of_words, mailbox, message, separator, subject, top_bits, word};

use crate::error::GenError;
use itoa::{Buffer, write_digits};
use std::alloc::{AllocError, Global};

/// The most messages that a mailbox is made of.
pub const MOST_MESSAGES: u64 = 100_000;

/// 2 ^ 64 over the golden ratio, made odd.
const MULTIPLIER: u64 = 0x9E37_79B9_7F4A_7C15;

const SEPARATOR: &[u8] = b"From gen@example.org Thu Jan  1 00:00:00 1970\n";

/// The mailbox of `count` messages, at most 404 bytes each.
///
/// Fails with `TooMany` where more than 100,000 messages are asked for.
pub fn make_mbox(alloc: Global, count: u64) -> Result<Vec<u8>, GenError>
    ensures ok { IfOk result (λ bytes. bytes.items ≡ mailbox count) }
    ensures exactly_too_many { ComesExactly result GenError.TooMany (100_000 < count) }
{
    if count > MOST_MESSAGES {
        return Err(GenError::TooMany);
    }
    let mut bytes = Vec::with_capacity(alloc, mailbox_len(count))?;
    for number in 1..count + 1 {
        push_message(&mut bytes, number)?;
    }
    Ok(bytes)
}

// How many bytes the mailbox has.
fn mailbox_len(count: u64) -> usize
    requires few { count ≤ 100_000 }
    ensures len { result ≡ length (mailbox count) }
    ensures small { result ≤ 500 * count }
{
    let mut len = 0;
    for number in 1..count + 1 {
        len += message_len(number);
    }
    len
}

// How many bytes a message has with its separator.
fn message_len(number: u64) -> usize
    requires first { 1 ≤ number }
    requires last { number ≤ 100_000 }
    ensures len { result ≡ length (message number) }
    ensures small { result ≤ 500 }
{
    let subject = b"Subject: m d \n".len() + decimal_len(number);
    let first = 48 * (number - 1) + 1;
    let words = line_len(first)
        + line_len(first + 12)
        + line_len(first + 24)
        + line_len(first + 36);
    SEPARATOR.len() + subject + b"\n".len() + words + b"\n".len()
}

// How many bytes a line of twelve words has.
fn line_len(first: u64) -> usize
    requires last { first ≤ 5_000_000 }
    ensures len { result ≡ length (line_of_words first) }
    ensures small { result ≤ 96 }
{
    let mut len = 0;
    for number in first..first + 12 {
        len += b"w ".len() + decimal_len(top_bits(number));
    }
    len
}

// How many digits a number has.
fn decimal_len(number: u64) -> usize
    ensures len { result ≡ length (decimal number) }
    ensures small { number < 1_000_000 → result ≤ 6 }
{
    let mut digits = [0; 20];
    20 - write_digits(number, &mut digits, 20)
}

// Appends a message with its separator.
fn push_message(bytes: &mut Vec<u8>, number: u64) -> Result<(), AllocError>
    requires first { 1 ≤ number }
    requires last { number ≤ 100_000 }
    ensures { OnOk result (bytes.new.items ≡ bytes.old.items ++ message number) }
{
    push_separator(bytes)?;
    push_subject(bytes, number)?;
    bytes.push(b'\n')?;
    for line in 0..4 {
        push_line(bytes, 48 * (number - 1) + 12 * line + 1)?;
    }
    bytes.push(b'\n')?;
    Ok(())
}

// Appends the separator.
#[tactic(auto, unfolding(crate::specs::Generator::separator))]
fn push_separator(bytes: &mut Vec<u8>) -> Result<(), AllocError>
    ensures { OnOk result (bytes.new.items ≡ bytes.old.items ++ separator) }
{
    bytes.extend_from_slice(SEPARATOR)
}

// Appends the line that names the message.
#[tactic(auto, unfolding(crate::specs::Generator::subject))]
fn push_subject(bytes: &mut Vec<u8>, number: u64) -> Result<(), AllocError>
    ensures { OnOk result (bytes.new.items ≡ bytes.old.items ++ subject number) }
{
    bytes.extend_from_slice(b"Subject: m")?;
    push_decimal(bytes, number)?;
    bytes.extend_from_slice(b" d")?;
    push_decimal(bytes, number % 10)?;
    bytes.push(b'\n')?;
    Ok(())
}

// Appends a line of twelve words.
fn push_line(bytes: &mut Vec<u8>, first: u64) -> Result<(), AllocError>
    requires last { first ≤ 5_000_000 }
    ensures { OnOk result (bytes.new.items ≡ bytes.old.items ++ line_of_words first) }
{
    push_word(bytes, first)?;
    for number in first + 1..first + 12 {
        bytes.push(b' ')?;
        push_word(bytes, number)?;
    }
    bytes.push(b'\n')?;
    Ok(())
}

// Appends a word.
#[tactic(auto, unfolding(crate::specs::Generator::word))]
fn push_word(bytes: &mut Vec<u8>, number: u64) -> Result<(), AllocError>
    ensures { OnOk result (bytes.new.items ≡ bytes.old.items ++ word number) }
{
    bytes.push(b'w')?;
    push_decimal(bytes, top_bits(number))?;
    Ok(())
}

// The highest sixteen bits of the product with the multiplier.
fn top_bits(number: u64) -> u64
    ensures bits { result ≡ top_bits number }
    ensures small { result < 65_536 }
{
    number.wrapping_mul(MULTIPLIER) >> 48
}

// Appends a number in decimal.
fn push_decimal(bytes: &mut Vec<u8>, number: u64) -> Result<(), AllocError>
    ensures { OnOk result (bytes.new.items ≡ bytes.old.items ++ decimal number) }
{
    let mut buffer = Buffer::new();
    bytes.extend_from_slice(buffer.format(number).as_bytes())
}
