//! Lists, with one answer for want of memory.
ghost use Rattle.std.specs.Prelude.{◌≡◌, ◌<◌, replicate, vec_len, vec_capacity, IfOk, OnOk};

use std::alloc::Global;
use tx_model::Memory;

/// A copy of these items.
pub(crate) fn to_vec<T: Copy>(alloc: Global, items: &[T]) -> Result<Vec<T>, Memory>
    ensures { IfOk result (λ copy. copy.items ≡ items.now) }
{
    match Vec::from_slice(alloc, items) {
        Ok(copy) => Ok(copy),
        Err(_) => Err(Memory),
    }
}

/// So many zeros.
pub(crate) fn zeros(alloc: Global, count: usize) -> Result<Vec<u64>, Memory>
    ensures { IfOk result (λ words. words.items ≡ replicate count 0) }
{
    match vec![in alloc; 0; count] {
        Ok(words) => Ok(words),
        Err(_) => Err(Memory),
    }
}

/// Makes room for one more item.
pub(crate) fn make_room<T>(items: &mut Vec<T>) -> Result<(), Memory>
    ensures kept { items.new.items ≡ items.old.items }
    ensures room { OnOk result (vec_len items.new < vec_capacity items.new) }
{
    match items.reserve(1) {
        Ok(()) => Ok(()),
        Err(_) => Err(Memory),
    }
}
