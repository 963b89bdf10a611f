//! A caller of the memory.
use crate::heap::Heap;
use crate::table::LockSeat;

/// A caller of the memory. It has the heap while an attempt is open. It has to be spent by `join` or by `close`.
pub struct TurnPass<S> {
    pub(crate) seat: LockSeat<S>,
    pub(crate) heap: Option<Heap>,
}
