//! Putting the postings of a batch into an index.
ghost use Rattle.std.specs.Prelude.{◌≡◌, ◌≢◌, ◌+◌, ◌*◌, ◌-◌, ◌<◌, ◌≤◌, ℕ, [], Some, None, length, IfOk, IfErr};
ghost use Rattle.tx_model.specs.declared.pass.PassState.TheVariants.{Active};
ghost use Rattle.tx_model.specs.declared.pass.TheConstants.{MAX_WRITES};
ghost use Rattle.mail_words.specs.Hash as hash;
ghost use Rattle.tx_model.specs.Calls.{IsStopped};
ghost use Rattle.tx_heap.specs.Layout.{mail_layout, segment_len};
ghost use Rattle.tx_heap.specs.Segment.{head_at};
ghost use Rattle.tx_heap.specs.Calls.{made_sizes, HoldsOverIndex};
ghost use Rattle.tx_buckets.specs.Reading.{IsOpened};
ghost use Rattle.tx_heap.specs.Pairwise.{Pairwise};
ghost use Rattle.tx_postings.specs.Heads.{HasHeads};
ghost use Rattle.tx_postings.specs.Filling.{FitsPosting, known_words, new_words, PutPosting, CanFill, HasNone, PutAll};

use crate::heads::{Head, write_heads};
use mail_words::{Key, bucket_of, lane_of};
use tx_buckets::{read_word, write_words};
use tx_heap::MailSense;
use tx_model::laws::pass_knows;
use tx_model::{Stop, TxMemory, Word};

/// Where the heads of the buckets begin in a segment.
const HEADS: u64 = 8;

/// The next record of the bucket, in a record.
const NEXT: u64 = 4;

/// The newest cell, in a record.
const NEWEST: u64 = 5;

/// The number of words of a record.
const RECORD_WORDS: u64 = 6;

/// The number of words of a cell.
const CELL_WORDS: u64 = 2;

// A word by its offset.
fn word(addr: u64, value: u64) -> Word
    ensures { (result.addr ≡ addr) × (result.value ≡ value) }
{
    Word { addr, value }
}

// The words of a new cell, and the newest cell of its record.
fn known_words(head: Head, at: u64, newest: u64, message: u64) -> [Word; 3]
    requires fits { FitsPosting head (Some at) }
    ensures { result ≡ known_words head at newest message }
{
    [
        word(head.free, message),
        word(head.free + 1, newest),
        word(at + NEWEST, head.free),
    ]
}

// The words of a new record and its first cell, and the head of the record's bucket.
fn new_words(head: Head, key: &Key, bucket: u64, next: u64, message: u64) -> [Word; 9]
    requires fits { FitsPosting head None }
    ensures { result ≡ new_words head key.now bucket next message }
{
    let at = head.free;
    let cell = at + RECORD_WORDS;
    [
        word(at, key.k0),
        word(at + 1, key.k1),
        word(at + 2, key.k2),
        word(at + 3, key.k3),
        word(at + NEXT, next),
        word(bucket, at),
        word(cell, message),
        word(cell + 1, 0),
        word(at + NEWEST, cell),
    ]
}

// Puts a cell of the message to the key's record, which it puts in too where there is none. Answers what the segment's first words are
// to be then: they aren't written yet.
fn put_posting<M: TxMemory<MailSense>>(
    mem: &M,
    pass: &mut M::Pass,
    message: u64,
    key: &Key,
    offset: Option<u64>,
    head: Head,
) -> Result<Head, Stop>
    requires of { M.of mem.now pass.old }
    requires active { (M.view pass.old).state ≡ Active }
    requires room { 9 ≤ MAX_WRITES - length (M.attempt pass.old).writes }
    requires opened { IsOpened (made_sizes (M.made mem.now)) (M.attempt pass.old) head.segment }
    requires fits { FitsPosting head offset }
    ensures of { M.of mem.now pass.new }
    ensures put { IfOk result
        (PutPosting (M.made mem.now) (M.view pass.old) (M.view pass.new) (M.attempt pass.old) (M.attempt pass.new) key.now message offset head) }
    ensures cause { IfErr result (IsStopped (M.shows mem.now) (M.made mem.now).opening (M.view pass.old) (M.view pass.new) (M.attempt pass.old)) }
{
    match offset {
        Some(at) => {
            let newest = read_word(mem, pass, head.segment, at + NEWEST)?;
            let words = known_words(head, at, newest, message);
            write_words(mem, pass, head.segment, &words);
            Ok(Head {
                free: head.free + CELL_WORDS,
                cells: head.cells + 1,
                ..head
            })
        }
        None => {
            let bucket = HEADS + bucket_of(key);
            let next = read_word(mem, pass, head.segment, bucket)?;
            let words = new_words(head, key, bucket, next, message);
            write_words(mem, pass, head.segment, &words);
            Ok(Head {
                free: head.free + RECORD_WORDS + CELL_WORDS,
                keys: head.keys + 1,
                cells: head.cells + 1,
                ..head
            })
        }
    }
}

// Puts a cell of the message to the record of each key, and then writes the first words of the segments.
pub(crate) fn put_all<M: TxMemory<MailSense>>(
    mem: &M,
    pass: &mut M::Pass,
    message: u64,
    keys: &[Key],
    offsets: &[Option<u64>],
    heads: &mut [Option<Head>],
) -> Result<(), Stop>
    requires of { M.of mem.now pass.old }
    requires active { (M.view pass.old).state ≡ Active }
    requires none { (M.attempt pass.old).writes ≡ [] }
    requires keys { length keys.now ≤ 16 }
    requires offsets { length keys.now ≤ length offsets.now }
    requires once { Pairwise ◌≢◌ keys.now }
    requires heads { HasHeads (M.made mem.now) (M.view pass.old) (M.attempt pass.old) keys.now (length keys.now) heads.old }
    requires can { HoldsOverIndex (M.made mem.now) (M.attempt pass.old) (CanFill mail_layout keys.now offsets.now) }
    requires new { HoldsOverIndex (M.made mem.now) (M.attempt pass.old) (HasNone mail_layout keys.now message) }
    ensures of { M.of mem.now pass.new }
    ensures put { IfOk result (λ _. PutAll (M.made mem.now) (M.view pass.old) (M.view pass.new) (M.attempt pass.old) (M.attempt pass.new) keys.now message) }
    ensures cause { IfErr result (IsStopped (M.shows mem.now) (M.made mem.now).opening (M.view pass.old) (M.view pass.new) (M.attempt pass.old)) }
{
    pass_knows(mem, pass);
    for k in 0..keys.len() {
        let lane = lane_of(&keys[k]) as usize;
        let Some(head) = heads[lane] else {
            unreachable!()
        };
        let then = put_posting(mem, pass, message, &keys[k], offsets[k], head)?;
        heads[lane] = Some(then);
        pass_knows(mem, pass);
    }
    write_heads(mem, pass, heads);
    Ok(())
}
