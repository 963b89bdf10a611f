//! The bucket and the lane of a key.
ghost use Rattle.std.specs.Prelude.{◌≡◌, ◌<◌};
ghost use Rattle.mail_words.specs.Hash.{mixed, hash_of, bucket_of, lane_of};

use crate::key::Key;

/// 2 ^ 64 over the golden ratio, made odd.
const MULTIPLIER: u64 = 0x9E37_79B9_7F4A_7C15;

/// The bucket of a key in a table of 1,024: the highest ten bits of its hash.
pub fn bucket_of(key: &Key) -> u64
    ensures bucket { result ≡ bucket_of key.now }
    ensures below { result < 1024 }
{
    hash_of(key) >> 54
}

/// The lane of a key, one of 8: the three bits of its hash below those of the bucket.
pub fn lane_of(key: &Key) -> u64
    ensures lane { result ≡ lane_of key.now }
    ensures below { result < 8 }
{
    (hash_of(key) >> 51) % 8
}

fn hash_of(key: &Key) -> u64
    ensures { result ≡ hash_of key.now }
{
    mixed(mixed(mixed(mixed(0, key.k0), key.k1), key.k2), key.k3)
}

// The hash with one more number.
fn mixed(hash: u64, number: u64) -> u64
    ensures { result ≡ mixed hash number }
{
    let product = (hash ^ number).wrapping_mul(MULTIPLIER);
    product ^ (product >> 32)
}
