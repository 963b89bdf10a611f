//! The write set of an attempt.
ghost use Rattle.std.specs.Prelude.{◌≡◌, ℕ, ◌+◌, ◌<◌, ◌≤◌, ◌^◌, List, [], ◌∷◌, ◌++◌, length, vec_len, vec_capacity, Some, None, IfOk, IfSome, slice_index_or, slice_set};
ghost use Rattle.tx_model.specs.declared.pass.TheConstants.{MAX_WRITES};
ghost use Rattle.tx_model.specs.Words.{index_of, value_of, no_word};

use ring_sig::place;
use std::alloc::Global;
use std::marker::Model;
use tx_model::laws::put_addresses;
use tx_model::{MAX_WRITES, Memory, Word};

/// How many places the addresses are sorted into, to find them.
const PLACES: usize = 512;

/// The writes of an attempt in the order of their first writes, each address once. It has room for all that it may hold,
/// and a look-up goes through the writes whose addresses have the same place.
#[derive(Drop)]
pub struct WriteSet {
    items: Vec<Word>,
    /// For each place the newest write to an address with it, as one more than its index, or 0.
    newest: [u16; PLACES],
    /// For each write the newest one before it whose address has the same place.
    older: [u16; MAX_WRITES],
}

impl Model for WriteSet {
    ghost use Rattle.std.specs.Prelude.{List, vec_len, vec_capacity, ◌≤◌};
    ghost use Rattle.tx_model.specs.declared.pass.TheConstants.{MAX_WRITES};
    ghost use Rattle.tx_model.specs.declared.word.Word.{Word};
    ghost use Rattle.ring_core.specs.Chains.{IsIndexed};

    ghost Value = { List Word };

    ghost view = { λ s. s.items.items };

    ghost invariant = { λ s. (vec_len s.items ≤ MAX_WRITES) × (MAX_WRITES ≤ vec_capacity s.items) × IsIndexed s.items.items s.newest s.older };
}

impl WriteSet {
    pub fn new(alloc: Global) -> Result<WriteSet, Memory>
        ensures { IfOk result (λ set. set ≡ []) }
    {
        match Vec::with_capacity(alloc, MAX_WRITES) {
            Ok(items) => Ok(WriteSet {
                items,
                newest: [0; PLACES],
                older: [0; MAX_WRITES],
            }),
            Err(_) => Err(Memory),
        }
    }

    pub fn len(&self) -> u64
        ensures count { result ≡ length self.now }
        ensures most { length self.now ≤ MAX_WRITES }
    {
        self.items.len() as u64
    }

    /// Where the write to an address is.
    pub fn index_of(&self, addr: u64) -> Option<usize>
        ensures { result ≡ index_of self.now addr }
    {
        if self.len() == 0 {
            return None;
        }
        let mut number = self.newest[place(addr, PLACES as u64) as usize];
        while number > 0 {
            let index = number as usize - 1;
            if self.at(index).addr == addr {
                return Some(index);
            }
            number = self.older[index];
        }
        None
    }

    /// The value written to an address.
    #[inline]
    pub fn value_of(&self, addr: u64) -> Option<u64>
        ensures { result ≡ value_of self.now addr }
    {
        let index = self.index_of(addr)?;
        let write = self.at(index);
        Some(write.value)
    }

    /// The write at this index in the order.
    pub fn at(&self, index: usize) -> Word
        requires { index < length self.now }
        ensures { result ≡ slice_index_or self.now index no_word }
    {
        let items = &self.items;
        items[index]
    }

    /// Another value for an address that was written.
    pub fn set(&mut self, index: usize, write: Word)
        requires { index_of self.old write.addr ≡ Some index }
        ensures { self.new ≡ slice_set self.old index write }
    {
        put_addresses();
        let items = &mut self.items;
        items[index] = write;
    }

    /// A first write to an address.
    pub fn push(&mut self, write: Word)
        requires room { length self.old < MAX_WRITES }
        requires new { index_of self.old write.addr ≡ None }
        ensures { self.new ≡ self.old ++ write ∷ [] }
    {
        put_addresses();
        let at = place(write.addr, PLACES as u64) as usize;
        let index = self.items.len();
        self.older[index] = self.newest[at];
        self.newest[at] = index as u16 + 1;
        self.items.push_reserved(write);
    }

    pub fn clear(&mut self)
        ensures { self.new ≡ [] }
    {
        for index in 0..self.items.len() {
            let items = &self.items;
            let at = place(items[index].addr, PLACES as u64) as usize;
            self.newest[at] = 0;
        }
        self.items.clear();
    }
}
