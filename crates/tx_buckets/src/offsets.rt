//! Where words lie in an open segment, in a record and in a cell.

/// The first free offset.
pub const FREE: u64 = 0;

/// How many records the segment has.
pub const KEYS: u64 = 1;

/// How many cells it has.
pub const CELLS: u64 = 2;

/// Where the heads of the buckets begin.
pub const HEADS: u64 = 8;

/// The next record of the bucket, in a record.
pub const NEXT: u64 = 4;

/// The newest cell, in a record.
pub const NEWEST: u64 = 5;

/// The number of words of a record.
pub const RECORD_WORDS: u64 = 6;

/// The number of words of a cell.
pub const CELL_WORDS: u64 = 2;
