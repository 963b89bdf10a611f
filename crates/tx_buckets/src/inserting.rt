//! Putting a record of a key into an open segment.
ghost use Rattle.std.specs.Prelude.{◌≡◌, ◌+◌, ◌-◌, ◌<◌, ◌≤◌, None, Contains, length, IfOk, IfErr};
ghost use Rattle.tx_model.specs.declared.pass.PassState.TheVariants.{Active};
ghost use Rattle.tx_model.specs.declared.pass.TheConstants.{MAX_WRITES};
ghost use Rattle.mail_words.specs.Hash as hash;
ghost use Rattle.tx_model.specs.Calls.{IsStopped};
ghost use Rattle.tx_heap.specs.Layout.{mail_layout, segment_len};
ghost use Rattle.tx_heap.specs.Segment.{free_of};
ghost use Rattle.tx_heap.specs.Heap.{segment_of, lane_segments};
ghost use Rattle.tx_heap.specs.Index.{IsIndex};
ghost use Rattle.tx_heap.specs.Calls.{made_sizes, HoldsOverIndex};
ghost use Rattle.tx_buckets.specs.Records.{IsFound};
ghost use Rattle.tx_buckets.specs.Reading.{IsOpened};
ghost use Rattle.tx_buckets.specs.Writing.{record_words, Inserted};

use crate::offsets::{FREE, HEADS, KEYS, NEWEST, NEXT, RECORD_WORDS};
use crate::reading::read_word;
use crate::writing::{word, write_words};
use mail_words::{Key, bucket_of};
use tx_heap::MailSense;
use tx_model::laws::{made_well, pass_knows};
use tx_model::{Stop, TxMemory, Word};

/// Puts a record of a key that has none into an open segment of its lane, and answers the record's offset. The record has no cell yet.
pub fn insert<M: TxMemory<MailSense>>(
    mem: &M,
    pass: &mut M::Pass,
    segment: u64,
    key: &Key,
) -> Result<u64, Stop>
    requires of { M.of mem.now pass.old }
    requires active { (M.view pass.old).state ≡ Active }
    requires room { 9 ≤ MAX_WRITES - length (M.attempt pass.old).writes }
    requires opened { IsOpened (made_sizes (M.made mem.now)) (M.attempt pass.old) segment }
    requires index { HoldsOverIndex (M.made mem.now) (M.attempt pass.old) (IsIndex mail_layout) }
    requires lane { HoldsOverIndex (M.made mem.now) (M.attempt pass.old) (λ heap. Contains (lane_segments heap (hash.lane_of key.now)) segment) }
    requires missing { HoldsOverIndex (M.made mem.now) (M.attempt pass.old) (λ heap. IsFound mail_layout (segment_of heap segment) key.now None) }
    requires free { HoldsOverIndex (M.made mem.now) (M.attempt pass.old) (λ heap. free_of (segment_of heap segment) + 6 ≤ segment_len) }
    ensures of { M.of mem.now pass.new }
    ensures inserted { IfOk result (Inserted (M.made mem.now) (M.view pass.old) (M.view pass.new) (M.attempt pass.old) (M.attempt pass.new) segment key.now) }
    ensures cause { IfErr result (IsStopped (M.shows mem.now) (M.made mem.now).opening (M.view pass.old) (M.view pass.new) (M.attempt pass.old)) }
{
    made_well(mem, pass);
    let bucket = HEADS + bucket_of(key);
    let head = read_word(mem, pass, segment, bucket)?;
    let at = read_word(mem, pass, segment, FREE)?;
    let keys = read_word(mem, pass, segment, KEYS)?;
    pass_knows(mem, pass);
    let words = record_words(at, bucket, head, keys, key);
    write_words(mem, pass, segment, &words);
    Ok(at)
}

// The words of a new record, and those that change with it.
fn record_words(at: u64, bucket: u64, head: u64, keys: u64, key: &Key) -> [Word; 9]
    requires at { at + 6 ≤ segment_len }
    requires keys { keys ≤ segment_len }
    ensures { result ≡ record_words at bucket head keys key.now }
{
    [
        word(at, key.k0),
        word(at + 1, key.k1),
        word(at + 2, key.k2),
        word(at + 3, key.k3),
        word(at + NEXT, head),
        word(at + NEWEST, 0),
        word(bucket, at),
        word(FREE, at + RECORD_WORDS),
        word(KEYS, keys + 1),
    ]
}
