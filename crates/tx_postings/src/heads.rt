//! The first words of the lanes' own segments: a batch reads them once, and writes them once.
ghost use Rattle.std.specs.Prelude.{◌≡◌, ◌+◌, ◌*◌, ◌<◌, ◌≤◌, ℕ, None, Some, length, slice_index_or};
ghost use Rattle.tx_model.specs.declared.pass.PassState.TheVariants.{Active};
ghost use Rattle.tx_model.specs.declared.pass.TheConstants.{MAX_WRITES};
ghost use Rattle.tx_heap.specs.Layout.{segment_len};
ghost use Rattle.tx_heap.specs.Calls.{made_sizes};
ghost use Rattle.tx_buckets.specs.Reading.{IsOpened};
ghost use Rattle.tx_postings.specs.Heads.{head_words, with_heads, HaveFree, IsLowest};
ghost use Rattle.tx_postings.specs.declared.heads.Head.{Head};

use tx_buckets::write_words;
use tx_heap::MailSense;
use tx_model::{TxMemory, Word};

/// The number of words of a segment.
const SEGMENT_WORDS: u64 = 32_768;

/// Where a segment has its first free offset, and how many records and cells it has.
pub(crate) const FREE: u64 = 0;

pub(crate) const KEYS: u64 = 1;

pub(crate) const CELLS: u64 = 2;

/// A lane's own segment, its first free offset, how many records and cells it has, and how many words the batch takes there.
#[derive(Clone, Copy)]
pub struct Head {
    pub segment: u64,
    pub free: u64,
    pub keys: u64,
    pub cells: u64,
    pub needs: u64,
}

/// How many words of the segment are free.
pub(crate) fn free_words(head: Head) -> u64
    requires free { head.free ≤ segment_len }
    ensures { result + head.free ≡ segment_len }
{
    SEGMENT_WORDS - head.free
}

/// The lowest lane whose own segment has fewer free words than the batch takes there.
pub(crate) fn lowest_that_lacks(heads: &[Option<Head>]) -> Option<(u64, Head)>
    requires many { length heads.now ≡ 8 }
    requires free { HaveFree heads.now }
    ensures { IsLowest heads.now result }
{
    for lane in 0..heads.len() {
        if let Some(head) = heads[lane] {
            if free_words(head) < head.needs {
                return Some((lane as u64, head));
            }
        }
    }
    None
}

// The first three words of a segment.
fn head_words(head: Head) -> [Word; 3]
    ensures { result ≡ head_words head }
{
    [
        Word {
            addr: FREE,
            value: head.free,
        },
        Word {
            addr: KEYS,
            value: head.keys,
        },
        Word {
            addr: CELLS,
            value: head.cells,
        },
    ]
}

// Writes the first words of the segments of all lanes that have a head.
pub(crate) fn write_heads<M: TxMemory<MailSense>>(
    mem: &M,
    pass: &mut M::Pass,
    heads: &[Option<Head>],
)
    requires of { M.of mem.now pass.old }
    requires active { (M.view pass.old).state ≡ Active }
    requires many { length heads.now ≡ 8 }
    requires opened { (lane : ℕ) (head : Head) → slice_index_or heads.now lane None ≡ Some head
        → IsOpened (made_sizes (M.made mem.now)) (M.attempt pass.old) head.segment }
    requires room { length (M.attempt pass.old).writes + 24 ≤ MAX_WRITES }
    ensures of { M.of mem.now pass.new }
    ensures same { M.view pass.new ≡ M.view pass.old }
    ensures written { M.attempt pass.new ≡ with_heads (made_sizes (M.made mem.now)) (M.attempt pass.old) heads.now }
{
    for lane in 0..heads.len() {
        if let Some(head) = heads[lane] {
            write_words(mem, pass, head.segment, &head_words(head));
        }
    }
}
