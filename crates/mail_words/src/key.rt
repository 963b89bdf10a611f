//! Keys of words.
ghost use Rattle.std.specs.Prelude.{◌≡◌, ◌+◌, ◌*◌, ◌≤◌, ◌==◌, not, length, slice_range, SomeIff, IsTrue};
ghost use Rattle.std.specs.List.{prefix_len};
ghost use Rattle.std.specs.Int.{w64, from_be_bytes};
ghost use Rattle.mail_words.specs.Key.{is_word, lowered, padded, numbers, key_of, key_bytes, word_of, is_key};

use std::marker::Model;

/// The longest word, in bytes.
const MAX_WORD_LEN: usize = 32;

/// The key of a word: its bytes, padded with zero bytes to 32, read as four big-endian numbers.
/// Keys are in the byte order of their words.
#[derive(Clone, Copy, Debug, PartialEq, Eq, PartialOrd, Ord)]
pub struct Key {
    pub k0: u64,
    pub k1: u64,
    pub k2: u64,
    pub k3: u64,
}

impl Model for Key {
    ghost use Rattle.std.specs.Prelude.{IsTrue};
    ghost use Rattle.mail_words.specs.Key.{KeyNumbers, is_key};

    ghost Value = { KeyNumbers };

    ghost view = { λ key. record { k0 = key.k0; k1 = key.k1; k2 = key.k2; k3 = key.k3 } };

    ghost invariant = { λ key. IsTrue (is_key (record { k0 = key.k0; k1 = key.k1; k2 = key.k2; k3 = key.k3 })) };

    ghost inverse = { λ key. record { k0 = key.k0; k1 = key.k1; k2 = key.k2; k3 = key.k3 } };
}

/// A word of `len` bytes, at the front of `bytes`. The other bytes are 0.
#[derive(Clone, Copy, Debug, PartialEq, Eq)]
pub struct WordBytes {
    pub bytes: [u8; 32],
    pub len: usize,
}

/// The key of the word in lower case. `None` where `word` isn't 1 to 32 ASCII letters and digits.
pub fn key_of(word: &[u8]) -> Option<Key>
    ensures { SomeIff result (IsTrue (is_word word.now)) (key_of (lowered word.now)) }
{
    if !is_word(word) {
        return None;
    }
    let bytes = padded_lower(word);
    Some(Key {
        k0: number_at(&bytes, 0),
        k1: number_at(&bytes, 8),
        k2: number_at(&bytes, 16),
        k3: number_at(&bytes, 24),
    })
}

/// The key of four numbers. `None` where they aren't the key of a word.
pub fn key_of_words(k0: u64, k1: u64, k2: u64, k3: u64) -> Option<Key>
    ensures { SomeIff result (IsTrue (is_key (numbers k0 k1 k2 k3))) (numbers k0 k1 k2 k3) }
{
    let bytes = number_bytes(k0, k1, k2, k3);
    let len = word_len(&bytes);
    let key = key_of(&bytes[..len])?;
    let found = (key.k0, key.k1, key.k2, key.k3);
    (found == (k0, k1, k2, k3)).then_some(key)
}

/// The word of a key, 1 to 32 bytes long.
pub fn bytes_of(key: &Key) -> WordBytes
    ensures len { result.len ≡ length (word_of key.now) }
    ensures bytes { result.bytes ≡ padded (word_of key.now) }
    ensures longer { 1 ≤ result.len }
    ensures shorter { result.len ≤ 32 }
{
    let bytes = number_bytes(key.k0, key.k1, key.k2, key.k3);
    let len = word_len(&bytes);
    WordBytes { bytes, len }
}

// The four numbers as bytes, the first the highest.
fn number_bytes(k0: u64, k1: u64, k2: u64, k3: u64) -> [u8; 32]
    ensures { result ≡ key_bytes (numbers k0 k1 k2 k3) }
{
    let mut bytes = [0; 32];
    bytes[..8].copy_from_slice(&k0.to_be_bytes());
    bytes[8..16].copy_from_slice(&k1.to_be_bytes());
    bytes[16..24].copy_from_slice(&k2.to_be_bytes());
    bytes[24..].copy_from_slice(&k3.to_be_bytes());
    bytes
}

// The index of the first zero byte, or 32.
fn word_len(bytes: &[u8; 32]) -> usize
    ensures { result ≡ prefix_len (λ byte. not (byte == 0)) bytes.now }
{
    bytes
        .iter()
        .position(|byte| *byte == 0)
        .unwrap_or(MAX_WORD_LEN)
}

fn is_word(word: &[u8]) -> bool
    ensures { result ≡ is_word word.now }
{
    !word.is_empty()
        && word.len() <= MAX_WORD_LEN
        && word.iter().all(|byte| byte.is_ascii_alphanumeric())
}

// The word in lower case, and zero bytes after it.
fn padded_lower(word: &[u8]) -> [u8; 32]
    requires { length word.now ≤ 32 }
    ensures { result ≡ padded (lowered word.now) }
{
    let mut bytes = [0; 32];
    for (index, byte) in word.iter().enumerate() {
        bytes[index] = byte.to_ascii_lowercase();
    }
    bytes
}

// The eight bytes from an index on, as one big-endian number.
fn number_at(bytes: &[u8; 32], index: usize) -> u64
    requires { index + 8 ≤ 32 }
    ensures { result ≡ from_be_bytes w64 (slice_range bytes.now index (index + 8)) }
{
    u64::from_be_bytes([
        bytes[index],
        bytes[index + 1],
        bytes[index + 2],
        bytes[index + 3],
        bytes[index + 4],
        bytes[index + 5],
        bytes[index + 6],
        bytes[index + 7],
    ])
}
