//! The word lists of several messages.
ghost use Rattle.std.specs.Prelude.{◌≡◌, ◌<◌, ◌≤◌, ◌^◌, ◌+◌, ◌-◌, [], ◌++◌, length, slice_index_or, IfOk, IfErr, OnOk, OnErr};
ghost use Rattle.std.specs.List.{All};
ghost use Rattle.std.specs.List.Sorted.{IsStrictlySortedBy};
ghost use Rattle.mail_words.specs.Key.{key_cmp};
ghost use Rattle.mail_words.specs.Lists.{word_lists, postings_in, AreKeys};
ghost use Rattle.mail_words.specs.declared.lists.ListsError.{ListsError};
ghost use Rattle.mbox_cut.specs.Exactly.{ComesExactly};
ghost use Rattle.mbox_cut.specs.Spans.{LiesIn};

use crate::chunk::{Chunk, chunk_of};
use crate::key::Key;
use crate::memory::Memory;
use mbox_cut::Span;
use std::alloc::{AllocError, AllocFailed, Global};
use std::marker::Model;
use thiserror::Error;

/// Why there are no word lists.
#[derive(Clone, Copy, Debug, PartialEq, Eq, Error)]
pub enum ListsError {
    /// The lists have more keys in all than the limit.
    #[error("the lists have more keys than the limit")]
    TooMany,
    /// Want of memory.
    #[error("no memory")]
    Memory,
}

impl From<Memory> for ListsError {
    ghost use Rattle.std.specs.Prelude.{◌≡◌};
    ghost use Rattle.mail_words.specs.declared.lists.ListsError.TheVariants.{Memory};

    ghost from_gives = { λ _ e. e ≡ Memory };

    fn from(_: Memory) -> Self {
        ListsError::Memory
    }
}

impl From<AllocError> for ListsError {
    ghost use Rattle.std.specs.Prelude.{◌≡◌};
    ghost use Rattle.mail_words.specs.declared.lists.ListsError.TheVariants.{Memory};

    ghost from_gives = { λ _ e. e ≡ Memory };

    fn from(_: AllocError) -> Self {
        ListsError::Memory
    }
}

impl<T: Drop> From<AllocFailed<T>> for ListsError {
    ghost use Rattle.std.specs.Prelude.{◌≡◌};
    ghost use Rattle.mail_words.specs.declared.lists.ListsError.TheVariants.{Memory};

    ghost from_gives = { λ _ e. e ≡ Memory };

    fn from(_: AllocFailed<T>) -> Self {
        ListsError::Memory
    }
}

/// The word lists of the messages, in order. Each has the keys of a message's words, rising, each once.
///
/// They lie in chunks: what was read at once lies in one, and lists that are appended stay in theirs.
#[derive(Debug, Drop)]
pub struct WordLists {
    chunks: Vec<Chunk>,
    messages: u64,
    postings: u64,
}

impl Model for WordLists {
    ghost use Rattle.std.specs.Prelude.{◌≡◌, List, length};
    ghost use Rattle.mail_words.specs.Key.{KeyNumbers};
    ghost use Rattle.mail_words.specs.Lists.{lists_in, postings_in};

    ghost Value = { List (List KeyNumbers) };

    ghost view = { λ lists. lists_in lists.chunks.items };

    ghost invariant = { λ lists. record {
      messages : lists.messages ≡ length (lists_in lists.chunks.items);
      postings : lists.postings ≡ postings_in (lists_in lists.chunks.items);
    } };
}

impl WordLists {
    /// The number of messages.
    pub fn messages(&self) -> u64
        ensures { result ≡ length self.now }
    {
        self.messages
    }

    /// The number of pairs of a word and a message that it is in.
    pub fn postings(&self) -> u64
        ensures { result ≡ postings_in self.now }
    {
        self.postings
    }

    /// The keys of the words of a message, rising. Messages count from 1.
    pub fn list(&self, message: u64) -> &[Key]
        requires from_one { 1 ≤ message }
        requires to_last { message ≤ length self.now }
        ensures list { result.now ≡ slice_index_or self.now (message - 1) [] }
        ensures rises { IsStrictlySortedBy key_cmp result.now }
        ensures keys { AreKeys result.now }
    {
        let mut left = message;
        for chunk in &self.chunks {
            if left <= chunk.messages() {
                return chunk.list(left);
            }
            left -= chunk.messages();
        }
        &[]
    }

    /// Puts the lists of `other` behind these. No list is copied.
    ///
    /// For want of memory it hands `other` back, and nothing has changed.
    pub fn append(&mut self, other: WordLists) -> Result<(), WordLists>
        requires messages { length self.old + length other < 2 ^ 33 }
        requires postings { postings_in self.old + postings_in other < 2 ^ 33 }
        ensures lists { OnOk result (self.new ≡ self.old ++ other) }
        ensures kept { OnErr result (self.new ≡ self.old) }
        ensures given_back { IfErr result (λ back. back ≡ other) }
    {
        let WordLists {
            mut chunks,
            messages,
            postings,
        } = other;
        let Ok(()) = self.chunks.append(&mut chunks) else {
            return Err(WordLists {
                chunks,
                messages,
                postings,
            });
        };
        self.messages += messages;
        self.postings += postings;
        Ok(())
    }
}

/// The word list of each span.
///
/// `TooMany` comes where the lists have more than `limit` keys in all.
pub fn lists_of(
    alloc: Global,
    bytes: &[u8],
    spans: &[Span],
    limit: u64,
) -> Result<WordLists, ListsError>
    requires spans { All (LiesIn (length bytes.now)) spans.now }
    requires limit { limit < 2 ^ 32 }
    ensures lists { IfOk result (λ lists. lists ≡ word_lists bytes.now spans.now) }
    ensures exactly_too_many { ComesExactly result ListsError.TooMany (limit < postings_in (word_lists bytes.now spans.now)) }
{
    let chunk = chunk_of(alloc, bytes, spans, limit)?;
    let (messages, postings) = (chunk.messages(), chunk.postings());
    let mut chunks = Vec::new(alloc);
    chunks.push(chunk)?;
    Ok(WordLists {
        chunks,
        messages,
        postings,
    })
}
