//! Mailboxes that are made for a test.
use crate::mailbox::sense_of;
use mail_words::{key_of, lane_of, lists_of};
use mbox_cut::cut;
use std::alloc::{AllocError, Global};
use std::test::Fail;
use tx_heap::MailSense;

/// A mailbox of messages that are made one after another.
#[derive(Drop)]
pub struct Made {
    bytes: Vec<u8>,
}

impl Made {
    pub fn new(alloc: Global) -> Self {
        Made {
            bytes: Vec::new(alloc),
        }
    }

    /// Begins a message.
    pub fn message(&mut self) -> Result<(), AllocError> {
        self.bytes.extend_from_slice(b"\n\nFrom a\n")
    }

    /// Adds a word to the last message.
    pub fn word(&mut self, word: &str) -> Result<(), AllocError> {
        self.bytes.extend_from_slice(word.as_bytes())?;
        self.bytes.push(b' ')?;
        Ok(())
    }

    /// Adds words `w` with a number from one on, `count` of them.
    pub fn words(&mut self, alloc: Global, from: u64, count: u64) -> Result<(), AllocError> {
        for index in 0..count {
            let number = from.saturating_add(index);
            self.word(&format!(in alloc; "w{number}")?)?;
        }
        Ok(())
    }

    /// The sense of its index.
    pub fn sense(&self, alloc: Global) -> Result<MailSense, Fail> {
        let spans = cut(alloc, &self.bytes, 100_000)?;
        let lists = lists_of(alloc, &self.bytes, &spans, 8_388_608)?;
        let sense = sense_of(lists).ok_or("too many")?;
        Ok(sense)
    }
}

/// The next number from one on whose word `w` with this number is of lane 0.
pub fn next_of_lane_0(alloc: Global, from: u64) -> Result<u64, Fail> {
    for index in 0..1_000 {
        let number = from.saturating_add(index);
        let word = format!(in alloc; "w{number}")?;
        let key = key_of(word.as_bytes()).ok_or("no key")?;
        if lane_of(&key) == 0 {
            return Ok(number);
        }
    }
    Err(Fail::from("none found"))
}

/// The sense of an index of messages that have so many words of lane 0 each, and no word in common.
pub fn of_lane_0(alloc: Global, counts: &[u64]) -> Result<MailSense, Fail> {
    let mut made = Made::new(alloc);
    let mut last = 0u64;
    for count in counts {
        made.message()?;
        for _ in 0..*count {
            last = next_of_lane_0(alloc, last.saturating_add(1))?;
            made.words(alloc, last, 1)?;
        }
    }
    made.sense(alloc)
}
