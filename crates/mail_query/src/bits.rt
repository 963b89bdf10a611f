//! Sets of message numbers, one bit each.
ghost use Rattle.std.specs.Prelude.{◌≡◌, ◌<◌, ◌/◌, ◌&&◌, ◌||◌, ℕ, Bool, false, not, length, filter, IfOk};
ghost use Rattle.std.specs.List.{range_with_len};
ghost use Rattle.mail_query.specs.Bits.{has_bit, AreWords, HasBits, GainsBit};
ghost use Rattle.mail_query.specs.Numbers.{has_number};

use mail_words::Memory;
use std::alloc::Global;

/// A set of numbers from 1 to a count, in words of 64 bits.
#[derive(Drop)]
pub(crate) struct Bits {
    words: Vec<u64>,
}

impl Bits {
    /// No numbers.
    pub(crate) fn empty(alloc: Global, count: u64) -> Result<Bits, Memory>
        ensures size { IfOk result (λ set. AreWords count set.words.items) }
        ensures none { IfOk result (λ set. HasBits count set.words.items (λ number. false)) }
    {
        let words = vec![in alloc; 0u64; (count / 64) as usize + 1]?;
        Ok(Bits { words })
    }

    /// The numbers of a list that are from 1 to `count`.
    pub(crate) fn of_numbers(alloc: Global, numbers: &[u64], count: u64) -> Result<Bits, Memory>
        ensures size { IfOk result (λ set. AreWords count set.words.items) }
        ensures numbers { IfOk result (λ set. HasBits count set.words.items (λ number. has_number number numbers.now)) }
    {
        let mut set = Bits::empty(alloc, count)?;
        for number in numbers {
            if *number <= count {
                set.add(*number);
            }
        }
        Ok(set)
    }

    // Puts one more number into the set.
    fn add(&mut self, number: u64)
        requires { number / 64 < length self.old.words.items }
        ensures { GainsBit self.old.words.items self.new.words.items number }
    {
        self.words[(number / 64) as usize] |= 1 << (number % 64);
    }

    // Whether the number is in the set.
    fn has(&self, number: u64) -> bool
        requires { number / 64 < length self.now.words.items }
        ensures { result ≡ has_bit self.now.words.items number }
    {
        (self.words[(number / 64) as usize] >> (number % 64)) & 1 == 1
    }

    /// The same set.
    pub(crate) fn copied(&self, alloc: Global) -> Result<Bits, Memory>
        ensures { IfOk result (λ set. set.words.items ≡ self.now.words.items) }
    {
        let words = self.words.to_vec(alloc)?;
        Ok(Bits { words })
    }

    /// Leaves the numbers that weren't in the set.
    pub(crate) fn complement(&mut self)
        ensures size { length self.new.words.items ≡ length self.old.words.items }
        ensures others { (number : ℕ) → number / 64 < length self.old.words.items
            → has_bit self.new.words.items number ≡ not (has_bit self.old.words.items number) }
    {
        for index in 0..self.words.len() {
            self.words[index] ^= u64::MAX;
        }
    }

    /// Leaves the numbers that are in the other set too.
    pub(crate) fn intersect(&mut self, other: &Bits)
        requires { length self.old.words.items ≡ length other.now.words.items }
        ensures size { length self.new.words.items ≡ length self.old.words.items }
        ensures both { (number : ℕ) → number / 64 < length self.old.words.items
            → has_bit self.new.words.items number ≡ (has_bit self.old.words.items number && has_bit other.now.words.items number) }
    {
        for index in 0..self.words.len() {
            self.words[index] &= other.words[index];
        }
    }

    /// Adds the numbers of the other set.
    pub(crate) fn unite(&mut self, other: &Bits)
        requires { length self.old.words.items ≡ length other.now.words.items }
        ensures size { length self.new.words.items ≡ length self.old.words.items }
        ensures either { (number : ℕ) → number / 64 < length self.old.words.items
            → has_bit self.new.words.items number ≡ (has_bit self.old.words.items number || has_bit other.now.words.items number) }
    {
        for index in 0..self.words.len() {
            self.words[index] |= other.words[index];
        }
    }

    /// The numbers from 1 to `count` that are in the set, rising.
    pub(crate) fn numbers(&self, alloc: Global, count: u64) -> Result<Vec<u64>, Memory>
        requires { AreWords count self.now.words.items }
        ensures { IfOk result (λ numbers. numbers.items ≡ filter (has_bit self.now.words.items) (range_with_len 1 count)) }
    {
        let mut numbers = Vec::new(alloc);
        for index in 0..count {
            let number = index + 1;
            if self.has(number) {
                numbers.push(number)?;
            }
        }
        Ok(numbers)
    }
}
