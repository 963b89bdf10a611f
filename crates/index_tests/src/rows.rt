//! The rows that the words of an index have.
use std::alloc::Global;
use std::test::Fail;
use tx_heap::Plan;

/// The words before the needs of the messages.
const FIRST_NEED: u64 = 16;

/// The words of a segment, and its bucket heads.
const SEGMENT_WORDS: u64 = 32_768;

const FIRST_BUCKET: u64 = 8;

const BUCKETS: u64 = 1_024;

/// More records in a bucket, and more cells of a record, than any test has.
const MOST: u64 = 10_000;

/// A row: the first two numbers of a key, which tell the short words of these mailboxes apart, and a message.
pub type Row = (u64, u64, u64);

/// The word at an offset of a segment.
fn word_at(words: &[u64], base: u64, offset: u64) -> Option<u64> {
    words.get(base.checked_add(offset)? as usize).copied()
}

/// The rows of one record, which are its cells.
fn push_cells(rows: &mut Vec<Row>, words: &[u64], base: u64, record: u64) -> Result<(), Fail> {
    let first = word_at(words, base, record).ok_or("no key")?;
    let second = word_at(words, base, record.saturating_add(1)).ok_or("no key")?;
    let mut cell = word_at(words, base, record.saturating_add(5)).ok_or("no cell")?;
    for _ in 0..MOST {
        if cell == 0 {
            return Ok(());
        }
        let message = word_at(words, base, cell).ok_or("no message")?;
        rows.push((first, second, message))?;
        cell = word_at(words, base, cell.saturating_add(1)).ok_or("no next cell")?;
    }
    Ok(())
}

/// The rows of one bucket.
fn push_records(rows: &mut Vec<Row>, words: &[u64], base: u64, bucket: u64) -> Result<(), Fail> {
    let mut record = word_at(words, base, bucket).ok_or("no bucket")?;
    for _ in 0..MOST {
        if record == 0 {
            return Ok(());
        }
        push_cells(rows, words, base, record)?;
        record = word_at(words, base, record.saturating_add(4)).ok_or("no next record")?;
    }
    Ok(())
}

/// The rows of all segments in use, sorted.
pub fn rows_of(alloc: Global, words: &[u64], plan: Plan) -> Result<Vec<Row>, Fail> {
    let used = word_at(words, 0, 0).ok_or("no pool")?;
    let mut rows = Vec::new(alloc);
    let mut base = FIRST_NEED
        .saturating_add(plan.messages)
        .saturating_add(plan.segments.saturating_mul(2));
    for _ in 0..used {
        for bucket in 0..BUCKETS {
            push_records(&mut rows, words, base, FIRST_BUCKET + bucket)?;
        }
        base = base.saturating_add(SEGMENT_WORDS);
    }
    rows.sort()?;
    Ok(rows)
}
