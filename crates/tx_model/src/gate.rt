//! Regions of the memory, and the values of their gates.
/// Some words of the memory that one caller may own: `len` of them from `base` on, with the word `gate` beside them.
/// The gate says how far the region is: one of the four constants below. It only goes up.
#[derive(Clone, Copy, Debug, PartialEq, Eq)]
pub struct Region {
    pub gate: u64,
    pub base: u64,
    pub len: u64,
}

/// The region is not in use yet.
pub const GATE_UNUSED: u64 = 0;

/// The region is read and written by transactions.
pub const GATE_OPEN: u64 = 1;

/// One caller owns the region, and reads and writes it plainly.
pub const GATE_SEALED: u64 = 2;

/// The region is read by transactions, and never written again.
pub const GATE_PACKED: u64 = 3;
