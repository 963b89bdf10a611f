//! Signatures, and the place of an address.
ghost use Rattle.std.specs.Prelude.{◌≡◌, ℕ, ◌*◌, ◌<◌, ◌↔◌, IsTrue, length, slice_index, replicate, take};
ghost use Rattle.ring_sig.specs.Signature.{IsWordCount, IsBitCount, place_of, bits_of, HasPlace, SharesPlace, AddsPlace, with_place, meets};

use std::marker::Model;

/// What an address is multiplied by, so that near addresses get far places.
const MIX: u64 = 0x9E37_79B9_7F4A_7C15;

/// The place of an address among `bits` places: the top bits of its product with `MIX`.
pub fn place(addr: u64, bits: u64) -> u64
    requires { IsBitCount bits }
    ensures place { result ≡ place_of addr bits }
    ensures within { result < bits }
{
    addr.wrapping_mul(MIX) >> (64 - bits.trailing_zeros())
}

/// A set of places, one bit each, in 1, 2, 4, 8 or 16 words. Contracts see the list of these words.
#[derive(Clone, Copy, Debug)]
pub struct Sig {
    words: [u64; 16],
    count: usize,
}

impl Model for Sig {
    ghost use Rattle.std.specs.Prelude.{ℕ, List, take};

    ghost Value = { List ℕ };

    ghost use Rattle.ring_sig.specs.Padded.{IsPadded, unpadded, take-pad};

    ghost view = { λ s. take s.count s.words };

    ghost invariant = { λ s. IsPadded s.words s.count };

    ghost inverse = { unpadded };

    ghost inverse_ok = { take-pad };
}

impl Sig {
    /// The empty set over `64 * words` places.
    pub fn empty(words: u64) -> Sig
        requires { IsWordCount words }
        ensures { result ≡ replicate words 0 }
    {
        Sig {
            words: [0; 16],
            count: words as usize,
        }
    }

    /// The set whose words are the first `words` of `from`: bit b of word j is place `64 * j + b`.
    pub fn of_words(words: u64, from: &[u64; 16]) -> Sig
        requires { IsWordCount words }
        ensures { result ≡ take words from.now }
    {
        let count = words as usize;
        let mut used = [0; 16];
        for j in 0..count {
            used[j] = from[j];
        }
        Sig { words: used, count }
    }

    /// Puts the place of an address into the set.
    pub fn add(&mut self, addr: u64)
        ensures set { self.new ≡ with_place self.old (place_of addr (bits_of self.old)) }
        ensures gained { AddsPlace self.old self.new (place_of addr (bits_of self.old)) }
    {
        let at = place(addr, 64 * self.count as u64);
        self.words[(at / 64) as usize] |= 1 << (at % 64);
    }

    /// Whether the place of an address is in the set.
    pub fn has(&self, addr: u64) -> bool
        ensures { IsTrue result ↔ HasPlace self.now (place_of addr (bits_of self.now)) }
    {
        let at = place(addr, 64 * self.count as u64);
        (self.words[(at / 64) as usize] >> (at % 64)) & 1 == 1
    }

    /// Whether two sets over as many places share one. It takes a word of each at a time.
    pub fn meets(&self, other: &Sig) -> bool
        requires { length self.now ≡ length other.now }
        ensures value { result ≡ meets self.now other.now }
        ensures shared { IsTrue result ↔ SharesPlace self.now other.now }
    {
        for j in 0..self.count {
            let common = self.words[j] & other.words[j];
            if common != 0 {
                return true;
            }
        }
        false
    }

    /// Word `j` of the set.
    pub fn word(&self, j: u64) -> u64
        requires { j < length self.now }
        ensures { result ≡ slice_index self.now j }
    {
        let words = &self.words;
        words[j as usize]
    }
}
