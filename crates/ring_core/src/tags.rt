//! The tag of an entry's slot, by the phase of the entry. It is 0 where the slot was never used.
ghost use Rattle.std.specs.Prelude.{◌≡◌, ◌^◌, ◌<◌};
ghost use Rattle.ring_core.specs.Tags.{filling, writing, complete, entry_of};

/// Its signature is being stored.
pub(crate) fn filling(entry: u64) -> u64
    requires { complete entry < 2 ^ 64 }
    ensures { result ≡ filling entry }
{
    4 * entry + 1
}

/// Its words are being stored.
pub(crate) fn writing(entry: u64) -> u64
    requires { complete entry < 2 ^ 64 }
    ensures { result ≡ writing entry }
{
    4 * entry + 2
}

/// All its words are stored.
pub fn complete(entry: u64) -> u64
    requires { complete entry < 2 ^ 64 }
    ensures { result ≡ complete entry }
{
    4 * entry + 3
}

/// The entry whose tag this is.
pub(crate) fn entry_of(tag: u64) -> u64
    ensures { result ≡ entry_of tag }
{
    tag / 4
}
