//! Taking the lock and giving it back, under whatever rule the table has.
ghost use Rattle.std.specs.Prelude.{◌≡◌, ◌≢◌, ◌<◌, ◌∷◌, [], ℕ, Some};
ghost use Rattle.atomic_table.specs.Table.{Allows, Step};
ghost use Rattle.turn_memory.specs.Lock.{Sat, Told, MayStep};

use crate::heap::Heap;
use crate::table::{About, Known, LockSeat, Slot};
use atomic_table::{Play, Shared, TableRule};
use std::sync::Wait;

/// Waits until the lock is free, and takes it. A step that finds it taken changes nothing.
pub(crate) fn take_lock<
    S,
    P: TableRule<Slot, Known<S>, About<S>>,
    M: Play<Slot, Known<S>>,
    R: Wait,
>(rt: &R, shared: &Shared<Slot, Known<S>, About<S>, P>, seat: &mut LockSeat<S>)
    requires table { (seat.old.table_id ≡ shared.now.table_id) × (0 < shared.now.table_id.words) }
    requires may { (f : ℕ → ℕ) → ((n : ℕ) → f n ≢ 0) → MayStep (P.holds shared.now.key) M.then shared.now.table_id.slots seat.old.id seat.old.me f }
    requires waits { (n : ℕ) (new : Sat S) → n ≢ 0 → Told M.then seat.old.me n new → new ≡ seat.old.me }
    ensures table { seat.new.table_id ≡ seat.old.table_id }
    ensures took { Told M.then seat.old.me 0 seat.new.me }
{
    if shared.compare_exchange::<M>(seat, 0, 0, 1) == 0 {
        return;
    }
    for _ in rt.forever() {
        if shared.swap::<M>(seat, 0, 2) == 0 {
            return;
        }
        shared.park(rt, 0, 2);
    }
    unreachable!()
}

/// Gives the lock back with the heap, and wakes one that may wait.
pub(crate) fn give_lock<S, P: TableRule<Slot, Known<S>, About<S>>, M: Play<Slot, Known<S>>>(
    shared: &Shared<Slot, Known<S>, About<S>, P>,
    seat: &mut LockSeat<S>,
    heap: Heap,
)
    requires table { (seat.old.table_id ≡ shared.now.table_id) × (0 < shared.now.table_id.words) }
    requires slot { (old : _) × (seat.old.me.1 ≡ (0, old) ∷ []) }
    requires may { MayStep (P.holds shared.now.key) M.then shared.now.table_id.slots seat.old.id (seat.old.me.0, (0, Some heap) ∷ []) (λ _. 0) }
    ensures table { seat.new.table_id ≡ seat.old.table_id }
    ensures gave { (n : ℕ) × Told M.then (seat.old.me.0, (0, Some heap) ∷ []) n seat.new.me }
{
    shared.exchange(seat, 0, Some(heap));
    if shared.swap::<M>(seat, 0, 0) == 2 {
        shared.wake_one(0);
    }
}
