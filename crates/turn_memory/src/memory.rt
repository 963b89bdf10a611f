//! The memory, as it is made and closed.
ghost use Rattle.std.specs.Prelude.{◌≡◌, ◌<◌, IfOk, length};
ghost use Rattle.tx_model.specs.declared.pass.PassState.TheVariants.{Idle};
ghost use Rattle.tx_model.specs.History.{state_at};
ghost use Rattle.tx_model.specs.Made.{IsMade};
ghost use Rattle.tx_model.specs.Pass.{IsWhole};
ghost use Rattle.turn_memory.specs.Lock.{made_with, first_pass};

use crate::heap::Heap;
use crate::pass::TurnPass;
use crate::table::{About, LockTable};
use atomic_table::{Refused, Table};
use std::alloc::Global;
use std::snapshot::Snapshot;
use tx_model::{Memory, Region, Sense, TxMemory};

/// A transaction memory that runs one attempt at a time.
pub struct TurnMemory<S: Sense> {
    pub(crate) table: LockTable<S>,
    pub(crate) sense: S,
    pub(crate) len: u64,
    pub(crate) life: u64,
    ghost told: { (table.shared.key.sense.value ≡ sense) × (length table.shared.key.opening.value.items ≡ len) × (table.shared.key.life ≡ life) },
    ghost sized: { (table.shared.table_id.words ≡ 1) × (table.shared.table_id.slots ≡ 1) },
}

impl<S: Sense + Drop> TurnMemory<S> {
    /// A memory with these words, and its first pass.
    pub fn new(
        alloc: Global,
        sense: S,
        first: Vec<u64>,
        regions: Vec<Region>,
        life: u64,
    ) -> Result<(TurnMemory<S>, TurnPass<S>), Memory>
        requires { IsMade S.allows S.good (made_with sense first.items regions.items life) }
        ensures made { IfOk result (λ r. ⟦<Self as TxMemory<S>>⟧.made r.0 ≡ made_with sense first.items regions.items life) }
        ensures of { IfOk result (λ r. ⟦<Self as TxMemory<S>>⟧.of r.0 r.1) }
        ensures view { IfOk result (λ r. ⟦<Self as TxMemory<S>>⟧.view r.1 ≡ first_pass) }
    {
        let about = About {
            sense: Snapshot::of(&sense),
            opening: Snapshot::of(&first),
            regions: Snapshot::of(&regions),
            life,
        };
        let len = first.len() as u64;
        let heap = Heap::new(alloc, first)?;
        let mut slots = Vec::new(alloc);
        let Ok(()) = slots.push(Some(heap)) else {
            return Err(Memory);
        };
        match Table::new(alloc, &[0], slots, &about) {
            Ok((table, seat)) => Ok((
                TurnMemory {
                    table,
                    sense,
                    len,
                    life,
                },
                TurnPass { seat, heap: None },
            )),
            Err(Refused { slots: _ }) => Err(Memory),
        }
    }

    /// The words of the last state. Every other pass was spent.
    pub fn close(self, pass: TurnPass<S>) -> Vec<u64>
        requires of { ⟦<Self as TxMemory<S>>⟧.of self pass }
        requires idle { (⟦<Self as TxMemory<S>>⟧.view pass).state ≡ Idle }
        requires whole { IsWhole (⟦<Self as TxMemory<S>>⟧.view pass) }
        ensures { result.items ≡ state_at (⟦<Self as TxMemory<S>>⟧.made self).opening (⟦<Self as TxMemory<S>>⟧.view pass).history
            (length (⟦<Self as TxMemory<S>>⟧.view pass).history) }
    {
        let TurnMemory {
            table,
            sense: _,
            len: _,
            life: _,
        } = self;
        let TurnPass { seat, heap: _ } = pass;
        let mut closed = table.close_with(seat);
        let Some(heap) = closed.take(0) else {
            unreachable!()
        };
        closed.free();
        heap.into_words()
    }
}
