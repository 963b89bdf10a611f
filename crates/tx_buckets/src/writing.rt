//! Writes of the words of an open segment.
ghost use Rattle.std.specs.Prelude.{◌≡◌, ◌+◌, ◌<◌, ◌≤◌, length};
ghost use Rattle.std.specs.List.{All};
ghost use Rattle.tx_model.specs.declared.pass.PassState.TheVariants.{Active};
ghost use Rattle.tx_model.specs.declared.word.Word.{Word};
ghost use Rattle.tx_model.specs.declared.pass.TheConstants.{MAX_WRITES};
ghost use Rattle.tx_heap.specs.Layout.{segment_len};
ghost use Rattle.tx_heap.specs.Calls.{made_sizes};
ghost use Rattle.tx_buckets.specs.Reading.{IsOpened};
ghost use Rattle.tx_buckets.specs.Writing.{with_words, word};

use tx_heap::{MailSense, write_word};
use tx_model::laws::made_well;
use tx_model::{TxMemory, Word};

/// Writes words of an open segment, in order. Their addresses count from the segment's first word.
pub fn write_words<M: TxMemory<MailSense>>(
    mem: &M,
    pass: &mut M::Pass,
    segment: u64,
    words: &[Word],
)
    requires of { M.of mem.now pass.old }
    requires active { (M.view pass.old).state ≡ Active }
    requires opened { IsOpened (made_sizes (M.made mem.now)) (M.attempt pass.old) segment }
    requires inside { All (λ (word : Word). word.addr < segment_len) words.now }
    requires room { length (M.attempt pass.old).writes + length words.now ≤ MAX_WRITES }
    ensures of { M.of mem.now pass.new }
    ensures same { M.view pass.new ≡ M.view pass.old }
    ensures written { M.attempt pass.new ≡ with_words (made_sizes (M.made mem.now)) segment (M.attempt pass.old) words.now }
{
    let plan = mem.sense().plan();
    made_well(mem, pass);
    let base = plan.base(segment);
    for word in words {
        write_word(mem, pass, base + word.addr, word.value);
    }
}

// A word by its address.
pub(crate) fn word(addr: u64, value: u64) -> Word
    ensures { result ≡ word addr value }
{
    Word { addr, value }
}
