//! What an attempt has read at the gates of regions.
ghost use Rattle.std.specs.Prelude.{◌≡◌, ◌<◌, ◌++◌, [], ◌∷◌, List, vec_len, vec_capacity, IsTrue, ◌↔◌, IfOk, OnOk, Contains};
ghost use Rattle.tx_model.specs.declared.word.Word.{Word};
ghost use Rattle.tx_model.specs.Words.{value_of};
ghost use Rattle.ring_state.specs.Gates.{KnowGates};

use crate::lists::make_room;
use std::alloc::Global;
use tx_model::{Memory, Region, Word};

/// The first read of each gate, so that the rule of regions is tested without a search through all reads.
#[derive(Drop)]
pub struct GateReads {
    /// The gates of all regions.
    pub gates: Vec<u64>,
    /// One read for each gate that was read.
    pub reads: Vec<Word>,
}

impl GateReads {
    /// No gate of these regions was read.
    pub fn of(alloc: Global, regions: &[Region]) -> Result<GateReads, Memory>
        ensures { IfOk result (λ g. KnowGates g []) }
    {
        let Ok(mut gates) = Vec::with_capacity(alloc, regions.len()) else {
            return Err(Memory);
        };
        for region in regions {
            gates.push_reserved(region.gate);
        }
        let reads = Vec::new(alloc);
        Ok(GateReads { gates, reads })
    }

    /// This is the address of a gate.
    fn has(&self, addr: u64) -> bool
        ensures { IsTrue result ↔ Contains self.now.gates.items addr }
    {
        self.gates.contains(&addr)
    }

    /// Makes room for one read.
    pub fn reserve(&mut self) -> Result<(), Memory>
        ensures gates { self.new.gates ≡ self.old.gates }
        ensures reads { self.new.reads.items ≡ self.old.reads.items }
        ensures room { OnOk result (vec_len self.new.reads < vec_capacity self.new.reads) }
    {
        make_room(&mut self.reads)
    }

    /// The attempt has read this word.
    pub fn note(&mut self, read: Word)
        requires { vec_len self.old.reads < vec_capacity self.old.reads }
        ensures { (reads : List Word) → KnowGates self.old reads → KnowGates self.new (reads ++ read ∷ []) }
    {
        if self.has(read.addr) && first_value(&self.reads, read.addr).is_none() {
            self.reads.push_reserved(read);
        }
    }

    /// The attempt is over.
    pub fn clear(&mut self)
        ensures { KnowGates self.new [] }
    {
        self.reads.clear();
    }

    /// What an attempt that has read these words has read first at this address, if it has.
    pub fn value_of(&self, reads: &[Word], addr: u64) -> Option<u64>
        requires { KnowGates self.now reads.now }
        ensures { result ≡ value_of reads.now addr }
    {
        if self.has(addr) {
            first_value(&self.reads, addr)
        } else {
            first_value(reads, addr)
        }
    }
}

/// The value of the first of these words at this address.
fn first_value(words: &[Word], addr: u64) -> Option<u64>
    ensures { result ≡ value_of words.now addr }
{
    for word in words {
        if word.addr == addr {
            return Some(word.value);
        }
    }
    None
}
