//! A caller of the ring, and what one caller tells another.
use crate::table::RingSeat;
use ring_core::Local;

/// A caller of the ring: its machine, and its seat at the table. It has to be spent by `join` or by `close`.
pub struct RingPass<S> {
    pub(crate) local: Local,
    pub(crate) seat: RingSeat<S>,
    /// How many of its own commits seal a region.
    pub(crate) seals: u64,
}

/// What a pass knew when it was noted. It has to be spent by `learn`.
pub struct Note<S> {
    pub(crate) seat: RingSeat<S>,
}
