//! The words of the memory, and what the attempt that has them wrote and read.
ghost use Rattle.std.specs.Prelude.{◌≡◌, ◌+◌, ◌-◌, ◌<◌, ◌≤◌, ◌^◌, ◌↔◌, length, nat_lt, None, IfOk, OnOk, OnErr, IsErr};
ghost use Rattle.tx_model.specs.declared.pass.TheConstants.{MAX_WRITES};
ghost use Rattle.tx_model.specs.Words.{value_of};
ghost use Rattle.turn_memory.specs.Heap.{read, resting, value_in, words_of, written};

use ghost_list::GhostList;
use ring_core::WriteSet;
use std::alloc::Global;
use std::marker::Model;
use tx_model::{MAX_WRITES, Memory, Word, WriteFull};

/// The words of the memory, and beside them what an attempt writes.
#[derive(Drop)]
pub(crate) struct Heap {
    words: Vec<u64>,
    commits: u64,
    writes: Box<WriteSet>,
    /// What the attempt has read, in order.
    reads: GhostList<Word>,
}

impl Model for Heap {
    ghost use Rattle.tx_model.specs.Rule.{ArePlaced};
    ghost use Rattle.turn_memory.specs.Heap.{HeapView};

    ghost Value = { HeapView };

    ghost view = { λ h. record { words = h.words.items; commits = h.commits; writes = h.writes.value; reads = h.reads.items } };

    ghost invariant = { λ h. ArePlaced h.words.items h.writes.value };
}

impl Heap {
    /// The heap of no attempt.
    pub(crate) fn new(alloc: Global, words: Vec<u64>) -> Result<Heap, Memory>
        ensures { IfOk result (λ heap. heap ≡ resting words.items 0) }
    {
        let writes = WriteSet::new(alloc)?;
        let writes = Box::new(alloc, writes).map_err(|_| Memory)?;
        Ok(Heap {
            words,
            commits: 0,
            writes,
            reads: GhostList::new(),
        })
    }

    /// How many more addresses the attempt may write.
    pub(crate) fn room(&self) -> u64
        ensures room { result ≡ MAX_WRITES - length self.now.writes }
        ensures most { length self.now.writes ≤ MAX_WRITES }
    {
        MAX_WRITES as u64 - self.writes.len()
    }

    /// Whether the attempt has written.
    pub(crate) fn has_written(&self) -> bool
        ensures { result ≡ nat_lt 0 (length self.now.writes) }
    {
        self.writes.len() > 0
    }

    pub(crate) fn commits(&self) -> u64
        ensures { result ≡ self.now.commits }
    {
        self.commits
    }

    /// The word there. It is among the reads of the attempt, if the attempt didn't write it.
    pub(crate) fn read(&mut self, addr: u64) -> u64
        requires { addr < length self.old.words }
        ensures value { result ≡ value_in self.old addr }
        ensures heap { self.new ≡ read self.old addr }
    {
        if let Some(value) = self.writes.value_of(addr) {
            return value;
        }
        let value = self.words[addr as usize];
        self.reads.push(&Word { addr, value });
        value
    }

    /// Writes the word there. It refuses exactly where the attempt has written as many other addresses as it may.
    pub(crate) fn write(&mut self, addr: u64, value: u64) -> Result<(), WriteFull>
        requires { addr < length self.old.words }
        ensures written { OnOk result (self.new ≡ written self.old addr value) }
        ensures unchanged { OnErr result (self.new ≡ self.old) }
        ensures exactly_full { IsErr result ↔ ((value_of self.old.writes addr ≡ None) × (length self.old.writes ≡ MAX_WRITES)) }
    {
        let word = Word { addr, value };
        match self.writes.index_of(addr) {
            Some(index) => self.writes.set(index, word),
            None => {
                if self.room() == 0 {
                    return Err(WriteFull);
                }
                self.writes.push(word);
            }
        }
        Ok(())
    }

    /// Forgets the attempt.
    pub(crate) fn restore(&mut self)
        ensures { self.new ≡ resting self.old.words self.old.commits }
    {
        self.writes.clear();
        self.reads = GhostList::new();
    }

    /// Keeps the writes of the attempt that was committed, and begins another one.
    pub(crate) fn settle(&mut self)
        ensures { self.new ≡ resting (words_of self.old) self.old.commits }
    {
        for at in 0..self.writes.len() as usize {
            let word = self.writes.at(at);
            self.words[word.addr as usize] = word.value;
        }
        self.restore();
    }

    /// Counts a commit.
    pub(crate) fn count_commit(&mut self)
        requires { self.old.commits < 2 ^ 60 }
        ensures { self.new ≡ record self.old { commits = self.old.commits + 1 } }
    {
        self.commits += 1;
    }

    /// The words with the writes of the attempt that was committed.
    pub(crate) fn into_words(mut self) -> Vec<u64>
        ensures { result.items ≡ words_of self }
    {
        self.settle();
        let Heap {
            words,
            commits: _,
            writes: _,
            reads: _,
        } = self;
        words
    }
}
