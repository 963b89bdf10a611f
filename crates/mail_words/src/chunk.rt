//! The word lists of messages that follow each other, in one list of keys.
ghost use Rattle.std.specs.Prelude.{◌≡◌, ◌<◌, ◌≤◌, ◌^◌, ◌-◌, [], ◌∷◌, length, slice_index, slice_index_or, slice_range, IfOk};
ghost use Rattle.std.specs.List.{All};
ghost use Rattle.std.specs.List.Sorted.{IsStrictlySortedBy};
ghost use Rattle.mail_words.specs.Key.{key_cmp};
ghost use Rattle.mail_words.specs.Lists.{word_lists, postings_in, AreKeys};
ghost use Rattle.mail_words.specs.declared.lists.ListsError.{ListsError};
ghost use Rattle.mbox_cut.specs.Exactly.{ComesExactly};
ghost use Rattle.mbox_cut.specs.Spans.{LiesIn};

use crate::key::Key;
use crate::lists::ListsError;
use crate::words::list_words;
use mbox_cut::Span;
use std::alloc::Global;
use std::marker::Model;

/// The word lists of messages that follow each other. Each has the keys of a message's words, rising, each once.
#[derive(Debug, Drop)]
pub(crate) struct Chunk {
    keys: Vec<Key>,
    ends: Vec<usize>,
}

impl Model for Chunk {
    ghost use Rattle.std.specs.Prelude.{List, length};
    ghost use Rattle.mail_words.specs.Key.{KeyNumbers};
    ghost use Rattle.mail_words.specs.Lists.{lists_from, AreEnds, AllRise, AllAreKeys};

    ghost Value = { List (List KeyNumbers) };

    ghost view = { λ lists. lists_from 0 lists.ends.items lists.keys.items };

    ghost invariant = { λ lists. record {
      ends : AreEnds 0 lists.ends.items (length lists.keys.items);
      rise : AllRise (lists_from 0 lists.ends.items lists.keys.items);
      keys : AllAreKeys (lists_from 0 lists.ends.items lists.keys.items);
    } };
}

impl Chunk {
    /// The number of messages.
    pub(crate) fn messages(&self) -> u64
        ensures { result ≡ length self.now }
    {
        self.ends.len() as u64
    }

    /// The number of pairs of a word and a message that it is in.
    pub(crate) fn postings(&self) -> u64
        ensures { result ≡ postings_in self.now }
    {
        self.keys.len() as u64
    }

    /// The keys of the words of a message, rising. Messages count from 1.
    pub(crate) fn list(&self, message: u64) -> &[Key]
        requires from_one { 1 ≤ message }
        requires to_last { message ≤ length self.now }
        ensures list { result.now ≡ slice_index_or self.now (message - 1) [] }
        ensures rises { IsStrictlySortedBy key_cmp result.now }
        ensures keys { AreKeys result.now }
    {
        let index = message as usize - 1;
        let start = start_of(&self.ends, index);
        part_of(&self.keys, start, self.ends[index])
    }
}

// Where the list at an index begins among the keys.
fn start_of(ends: &[usize], index: usize) -> usize
    requires { index ≤ length ends.now }
    ensures { result ≡ slice_index (0 ∷ ends.now) index }
{
    if index == 0 { 0 } else { ends[index - 1] }
}

fn part_of(keys: &[Key], start: usize, end: usize) -> &[Key]
    requires order { start ≤ end }
    requires inside { end ≤ length keys.now }
    ensures { result.now ≡ slice_range keys.now start end }
{
    &keys[start..end]
}

// The word list of each span. `TooMany` comes where the lists have more than `limit` keys in all.
pub(crate) fn chunk_of(
    alloc: Global,
    bytes: &[u8],
    spans: &[Span],
    limit: u64,
) -> Result<Chunk, ListsError>
    requires spans { All (LiesIn (length bytes.now)) spans.now }
    requires limit { limit < 2 ^ 32 }
    ensures lists { IfOk result (λ lists. lists ≡ word_lists bytes.now spans.now) }
    ensures exactly_too_many { ComesExactly result ListsError.TooMany (limit < postings_in (word_lists bytes.now spans.now)) }
{
    let room = most_keys(spans).min(limit);
    let mut keys = Vec::with_capacity(alloc, room as usize)?;
    let mut ends = Vec::with_capacity(alloc, spans.len())?;
    let mut list = Vec::new(alloc);
    for span in spans {
        list_words(&mut list, &bytes[span.from as usize..span.to as usize])?;
        if list.len() as u64 > limit - keys.len() as u64 {
            return Err(ListsError::TooMany);
        }
        keys.extend_from_slice(&list)?;
        ends.push(keys.len())?;
    }
    Ok(Chunk { keys, ends })
}

// How many keys the lists may have. A word takes a byte, and another byte parts it from the next. Room that isn't used is
// never touched.
fn most_keys(spans: &[Span]) -> u64 {
    let mut most: u64 = 0;
    for span in spans {
        most = most.saturating_add(span.to.saturating_sub(span.from).div_ceil(2));
    }
    most
}
