//! The memory that an index begins with.
ghost use Rattle.std.specs.Prelude.{◌≡◌, ◌<◌, ◌≤◌, ◌^◌, ◌++◌, length, replicate, IfOk, OnOk};
ghost use Rattle.tx_model.specs.Made.{AreWellFormed};
ghost use Rattle.tx_heap.specs.Layout.{sizes_of, regions_of, IsWithinLimits};
ghost use Rattle.tx_heap.specs.Mail.{IsGoodMail};
ghost use Rattle.tx_heap.specs.Opening.{opening_needs, opening_free, opening_segment, opening_segments, opening_of};

use crate::plan::{FIRST_FREE, LANES, SEGMENT_WORDS};
use crate::sense::MailSense;
use mail_words::WordLists;
use std::alloc::{AllocError, Global};
use tx_model::{GATE_OPEN, GATE_UNUSED, Memory};

/// The pool, the eight lanes, and seven words that are not used.
const FIRST_WORDS: [u64; 16] = [8, 1, 2, 3, 4, 5, 6, 7, 8, 0, 0, 0, 0, 0, 0, 0];

/// The memory that an index begins with: eight open and empty segments, one for each lane, and all words of each message still to come.
pub fn opening(alloc: Global, sense: &MailSense) -> Result<Vec<u64>, Memory>
    ensures opening { IfOk result (λ words. words.items ≡ opening_of sense.now) }
    ensures good { IfOk result (λ words. IsGoodMail sense.now words.items words.items) }
    ensures regions { IfOk result (λ words. AreWellFormed words.items (regions_of (sizes_of sense.now))) }
    ensures size { IfOk result (λ words. (1 ≤ length words.items) × (length words.items ≤ 2 ^ 27)) }
{
    match opening_words(alloc, sense) {
        Ok(words) => Ok(words),
        Err(AllocError) => Err(Memory),
    }
}

fn opening_words(alloc: Global, sense: &MailSense) -> Result<Vec<u64>, AllocError>
    ensures opening { IfOk result (λ words. words.items ≡ opening_of sense.now) }
    ensures limits { OnOk result (IsWithinLimits (sizes_of sense.now)) }
{
    let plan = sense.plan();
    let mut words = Vec::with_capacity(alloc, plan.words() as usize)?;
    words.extend_from_slice(&FIRST_WORDS)?;
    push_needs(&mut words, sense.lists())?;
    push_copies(&mut words, LANES, GATE_OPEN)?;
    push_copies(&mut words, plan.segments - LANES, GATE_UNUSED)?;
    push_copies(&mut words, plan.segments, 0)?;
    push_segments(&mut words, plan.segments)?;
    Ok(words)
}

// The length of each list.
fn push_needs(words: &mut Vec<u64>, lists: &WordLists) -> Result<(), AllocError>
    ensures { OnOk result (words.new.items ≡ words.old.items ++ opening_needs lists.now) }
{
    for message in 0..lists.messages() {
        words.push(lists.list(message + 1).len() as u64)?;
    }
    Ok(())
}

// The words of each segment: the first eight have a free offset.
fn push_segments(words: &mut Vec<u64>, segments: u64) -> Result<(), AllocError>
    ensures { OnOk result (words.new.items ≡ words.old.items ++ opening_segments segments) }
{
    for segment in 0..segments {
        push_segment(words, segment)?;
    }
    Ok(())
}

fn push_segment(words: &mut Vec<u64>, segment: u64) -> Result<(), AllocError>
    ensures { OnOk result (words.new.items ≡ words.old.items ++ opening_segment segment) }
{
    words.push(opening_free(segment))?;
    push_copies(words, SEGMENT_WORDS - 1, 0)
}

fn opening_free(segment: u64) -> u64
    ensures { result ≡ opening_free segment }
{
    if segment < LANES { FIRST_FREE } else { 0 }
}

fn push_copies(words: &mut Vec<u64>, count: u64, word: u64) -> Result<(), AllocError>
    requires { count < 2 ^ 32 }
    ensures { OnOk result (words.new.items ≡ words.old.items ++ replicate count word) }
{
    words.resize(words.len() + count as usize, word)
}
