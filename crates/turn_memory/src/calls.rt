//! The calls of the memory.
ghost use Rattle.std.specs.Prelude.{◌≡◌, ◌∷◌, [], ℕ, List, Some};
ghost use Rattle.turn_memory.specs.Lock.{made_of, TookLock};

use crate::lock::{give_lock, take_lock};
use crate::memory::TurnMemory;
use crate::pass::TurnPass;
use crate::table::{Halves, LockRule, Look, Publish, Release, Take};
use std::sync::Wait;
use tx_model::laws::{joined_shares, split_shares};
use tx_model::{
    CommitError, MAX_WRITES, Memory, PassState, Receipt, Sense, Stop, TxMemory, WriteFull,
};

impl<S: Sense> TxMemory<S> for TurnMemory<S> {
    ghost use Rattle.turn_memory.specs.TurnPass.{IsPassOf, view_of, attempt_of};

    type Pass = TurnPass<S>;

    ghost made = { λ mem. made_of mem.table.shared.key };

    ghost of = { λ mem pass. IsPassOf S.allows S.good S.budget mem.table.shared.key mem.table.shared.table_id pass };

    ghost view = { view_of };

    ghost attempt = { attempt_of };

    // An attempt runs alone, so nothing ever shows that it had to stop.
    ghost shows = { λ mem history start read stop. ⊥ };

    fn sense(&self) -> &S {
        &self.sense
    }

    fn len(&self) -> u64 {
        self.len
    }

    fn life(&self) -> u64 {
        self.life
    }

    fn state(&self, pass: &TurnPass<S>) -> PassState {
        match pass.heap {
            Some(_) => PassState::Active,
            None => PassState::Idle,
        }
    }

    fn room(&self, pass: &TurnPass<S>) -> u64 {
        match &pass.heap {
            Some(heap) => heap.room(),
            None => MAX_WRITES as u64,
        }
    }

    fn begin<R: Wait + Sync>(&self, rt: &R, pass: &mut TurnPass<S>) {
        take_lock::<S, LockRule<S>, Take<S>, R>(rt, &self.table.shared, &mut pass.seat);
        if let Some(mut heap) = self.table.shared.exchange(&mut pass.seat, 0, None) {
            heap.settle();
            pass.heap = Some(heap);
        }
    }

    fn read(&self, pass: &mut TurnPass<S>, addr: u64) -> Result<u64, Stop> {
        let Some(heap) = &mut pass.heap else {
            unreachable!()
        };
        Ok(heap.read(addr))
    }

    fn write(&self, pass: &mut TurnPass<S>, addr: u64, value: u64) -> Result<(), WriteFull> {
        let Some(heap) = &mut pass.heap else {
            unreachable!()
        };
        heap.write(addr, value)
    }

    fn give_up(&self, pass: &mut TurnPass<S>) {
        let Some(mut heap) = pass.heap.take() else {
            unreachable!()
        };
        heap.restore();
        give_lock::<S, LockRule<S>, Release<S>>(&self.table.shared, &mut pass.seat, heap);
    }

    fn commit<R: Wait + Sync>(
        &self,
        _rt: &R,
        pass: &mut TurnPass<S>,
    ) -> Result<Receipt, CommitError> {
        let Some(mut heap) = pass.heap.take() else {
            unreachable!()
        };
        let commits = heap.commits();
        let wrote = heap.has_written();
        if !wrote || commits == self.life {
            heap.restore();
            give_lock::<S, LockRule<S>, Release<S>>(&self.table.shared, &mut pass.seat, heap);
            return if wrote {
                Err(CommitError::Worn { index: commits })
            } else {
                Ok(Receipt {
                    stamp: commits,
                    wrote,
                })
            };
        }
        heap.count_commit();
        give_lock::<S, LockRule<S>, Publish<S>>(&self.table.shared, &mut pass.seat, heap);
        Ok(Receipt {
            stamp: commits + 1,
            wrote,
        })
    }

    fn split(&self, pass: &mut TurnPass<S>) -> Result<TurnPass<S>, Memory> {
        split_shares();
        let seat = self.table.shared.split_seat::<Halves<S>>(&mut pass.seat);
        Ok(TurnPass { seat, heap: None })
    }

    fn join(&self, pass: &mut TurnPass<S>, other: TurnPass<S>) {
        joined_shares();
        let TurnPass { seat, heap: _ } = other;
        let shared = &self.table.shared;
        shared.join_seat::<Halves<S>>(&mut pass.seat, seat);
        shared.load::<Look<S>>(&mut pass.seat, 0);
    }

    ghost made_well = { λ mem pass of. of.is_made };

    ghost stays_shown = { λ mem history longer start read stop beginning shown. shown };

    ghost has_later = { λ mem history start read stop shown. absurd shown };

    ghost knows = { λ mem pass of. of.is_pass };
}
