//! The numbers of a line, as what they are for.
ghost use Rattle.std.specs.Prelude.{◌≡◌, ◌≤◌, ℕ, List, length, map, Decides, MatchOption};
ghost use Rattle.ring_script.specs.Grammar.{AreNumbers, IsNamedLine};
ghost use Rattle.ring_script.specs.Reading.{HasAt};
ghost use Rattle.ring_script.specs.Names.{one_in, word_in, region_in};

use crate::number::number_of;
use arrayvec::ArrayVec;
use tx_model::{Region, Word};

/// The most numbers behind a name.
pub const MOST_NUMBERS: usize = 3;

/// The numbers that the tokens are, where they are all numbers and no more than a line has behind its name.
pub fn numbers_of(tokens: &[&[u8]]) -> Option<ArrayVec<u64, MOST_NUMBERS>>
    ensures { MatchOption result ((numbers : List ℕ) → length numbers ≤ 3 → AreNumbers (map (λ t. t.now) tokens.now) numbers → ⊥)
        (λ numbers. AreNumbers (map (λ t. t.now) tokens.now) numbers.items) }
{
    let mut numbers = ArrayVec::new();
    for token in tokens {
        if numbers.is_full() {
            return None;
        }
        match number_of(token) {
            Some(number) => numbers.push(number),
            None => return None,
        }
    }
    Some(numbers)
}

/// The numbers behind this name, which is the first token.
pub fn named_numbers(tokens: &[&[u8]], name: &[u8]) -> Option<ArrayVec<u64, MOST_NUMBERS>>
    ensures { MatchOption result ((numbers : List ℕ) → length numbers ≤ 3 → IsNamedLine (map (λ t. t.now) tokens.now) name.now numbers → ⊥)
        (λ numbers. IsNamedLine (map (λ t. t.now) tokens.now) name.now numbers.items) }
{
    if !has_at(tokens, 0, name) {
        return None;
    }
    numbers_of(&tokens[1..])
}

/// The token at this index is the name.
pub fn has_at(tokens: &[&[u8]], at: usize, name: &[u8]) -> bool
    ensures { Decides result (HasAt (map (λ t. t.now) tokens.now) at name.now) }
{
    at < tokens.len() && tokens[at] == name
}

/// The only number.
pub fn one_in(numbers: &[u64]) -> Option<u64>
    ensures { result ≡ one_in numbers.now }
{
    match numbers {
        [number] => Some(*number),
        _ => None,
    }
}

/// A word of the memory: its address and its value.
pub fn word_in(numbers: &[u64]) -> Option<Word>
    ensures { result ≡ word_in numbers.now }
{
    match numbers {
        [addr, value] => Some(Word {
            addr: *addr,
            value: *value,
        }),
        _ => None,
    }
}

/// A region: its gate, its base and its length.
pub fn region_in(numbers: &[u64]) -> Option<Region>
    ensures { result ≡ region_in numbers.now }
{
    match numbers {
        [gate, base, len] => Some(Region {
            gate: *gate,
            base: *base,
            len: *len,
        }),
        _ => None,
    }
}
