//! Putting a cell to a record of an open segment.
ghost use Rattle.std.specs.Prelude.{◌≡◌, ◌+◌, ◌-◌, ◌<◌, ◌≤◌, Contains, length, IfOk, IfErr};
ghost use Rattle.tx_model.specs.declared.pass.PassState.TheVariants.{Active};
ghost use Rattle.tx_model.specs.declared.pass.TheConstants.{MAX_WRITES};
ghost use Rattle.tx_model.specs.Calls.{IsStopped};
ghost use Rattle.tx_heap.specs.Layout.{mail_layout, segment_len};
ghost use Rattle.tx_heap.specs.Segment.{free_of};
ghost use Rattle.tx_heap.specs.Heap.{segment_of};
ghost use Rattle.tx_heap.specs.Index.{IsIndex};
ghost use Rattle.tx_heap.specs.Calls.{made_sizes, HoldsOverIndex};
ghost use Rattle.tx_buckets.specs.Records.{HasRecordAt};
ghost use Rattle.tx_buckets.specs.Reading.{IsOpened};
ghost use Rattle.tx_buckets.specs.Writing.{cell_words, AddedCell};

use crate::offsets::{CELL_WORDS, CELLS, FREE, NEWEST};
use crate::reading::read_word;
use crate::writing::{word, write_words};
use tx_heap::MailSense;
use tx_model::laws::pass_knows;
use tx_model::{Stop, TxMemory, Word};

/// Puts a cell of a message to the record at a offset, in front of its other cells.
pub fn add_cell<M: TxMemory<MailSense>>(
    mem: &M,
    pass: &mut M::Pass,
    segment: u64,
    offset: u64,
    message: u64,
) -> Result<(), Stop>
    requires of { M.of mem.now pass.old }
    requires active { (M.view pass.old).state ≡ Active }
    requires room { 5 ≤ MAX_WRITES - length (M.attempt pass.old).writes }
    requires opened { IsOpened (made_sizes (M.made mem.now)) (M.attempt pass.old) segment }
    requires index { HoldsOverIndex (M.made mem.now) (M.attempt pass.old) (IsIndex mail_layout) }
    requires there { HoldsOverIndex (M.made mem.now) (M.attempt pass.old) (λ heap. HasRecordAt mail_layout (segment_of heap segment) offset) }
    requires free { HoldsOverIndex (M.made mem.now) (M.attempt pass.old) (λ heap. free_of (segment_of heap segment) + 2 ≤ segment_len) }
    ensures of { M.of mem.now pass.new }
    ensures added { IfOk result (λ _. AddedCell (M.made mem.now) (M.view pass.old) (M.view pass.new)
        (M.attempt pass.old) (M.attempt pass.new) segment offset message) }
    ensures cause { IfErr result (IsStopped (M.shows mem.now) (M.made mem.now).opening (M.view pass.old) (M.view pass.new) (M.attempt pass.old)) }
{
    pass_knows(mem, pass);
    let newest = read_word(mem, pass, segment, offset + NEWEST)?;
    let at = read_word(mem, pass, segment, FREE)?;
    let cells = read_word(mem, pass, segment, CELLS)?;
    pass_knows(mem, pass);
    let words = cell_words(at, offset, newest, cells, message);
    write_words(mem, pass, segment, &words);
    Ok(())
}

// The words of a new cell, and those that change with it.
fn cell_words(at: u64, offset: u64, newest: u64, cells: u64, message: u64) -> [Word; 5]
    requires at { at + 2 ≤ segment_len }
    requires offset { offset + 6 ≤ segment_len }
    requires cells { cells ≤ segment_len }
    ensures { result ≡ cell_words at offset newest cells message }
{
    [
        word(at, message),
        word(at + 1, newest),
        word(offset + NEWEST, at),
        word(FREE, at + CELL_WORDS),
        word(CELLS, cells + 1),
    ]
}
