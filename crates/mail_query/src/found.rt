//! The messages that were found for a word.
ghost use Rattle.std.specs.Prelude.{IfOk};
ghost use Rattle.mail_query.specs.Bits.{AreWords, HasBits, IsSetOf, IsFoundSized, found_has};
ghost use Rattle.mail_query.specs.Numbers.{has_number};

use crate::bits::Bits;
use mail_words::Memory;
use std::alloc::Global;

/// The numbers of the messages that have a word: a list where they are few, and else one bit each, which takes less.
#[derive(Drop)]
pub(crate) enum Found {
    Few { numbers: Vec<u64> },
    Many { bits: Bits },
}

impl Found {
    /// The numbers of the list that are from 1 to `count`.
    pub(crate) fn of(alloc: Global, numbers: Vec<u64>, count: u64) -> Result<Found, Memory>
        ensures size { IfOk result (λ found. IsFoundSized count found) }
        ensures numbers { IfOk result (λ found. IsSetOf count (found_has found) (λ number. has_number number numbers.items)) }
    {
        if numbers.len() as u64 <= count / 64 {
            return Ok(Found::Few { numbers });
        }
        let bits = Bits::of_numbers(alloc, &numbers, count)?;
        Ok(Found::Many { bits })
    }

    /// The numbers as bits.
    pub(crate) fn bits(&self, alloc: Global, count: u64) -> Result<Bits, Memory>
        requires { IsFoundSized count self.now }
        ensures size { IfOk result (λ set. AreWords count set.words.items) }
        ensures numbers { IfOk result (λ set. HasBits count set.words.items (found_has self.now)) }
    {
        match self {
            Found::Few { numbers } => Bits::of_numbers(alloc, numbers, count),
            Found::Many { bits } => bits.copied(alloc),
        }
    }
}
