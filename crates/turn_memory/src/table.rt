//! The table that all passes share. Its one word is the lock: 0 where it is free, 1 where it is taken, and 2 where
//! it is taken and somebody may wait for it. Its one slot holds the heap while the lock is free.
use crate::heap::Heap;
use atomic_table::{Join, Play, Seat, Split, Table, TableRule};
use std::alloc::Global;
use std::collections::LinkedList;
use std::marker::PhantomData;
use std::snapshot::Snapshot;
use tx_model::{Commit, PassView, Region, Sense};

/// What the memory is made with, as the table is told it.
#[derive(Drop)]
pub struct About<S> {
    pub sense: Snapshot<S>,
    pub opening: Snapshot<Vec<u64>>,
    pub regions: Snapshot<Vec<Region>>,
    pub life: u64,
}

/// What a seat at the table knows. No value of it is made.
pub struct Knowledge<S> {
    pub about: About<S>,
    pub pass: PassView,
    /// A further beginning of the history, no longer than the pass's own.
    pub other: LinkedList<Commit>,
}

/// There is one legal history, and the heap holds its last state while the lock is free.
pub struct LockRule<S> {
    sense: PhantomData<S>,
}

pub type Slot = Option<Heap>;

/// A seat that was joined into another knows nothing.
pub type Known<S> = Option<Knowledge<S>>;

pub type LockTable<S> = Table<Slot, Known<S>, About<S>, LockRule<S>, Global>;

pub type LockSeat<S> = Seat<Slot, Known<S>>;

impl<S: Sense> TableRule<Slot, Known<S>, About<S>> for LockRule<S> {
    ghost use Rattle.turn_memory.specs.Lock.{IsTable, first_known};

    ghost holds = { IsTable S.good S.budget };

    ghost first = { first_known };
}

/// The lock is taken where it is free, and then the heap is there.
pub(crate) struct Take<S> {
    sense: PhantomData<S>,
}

impl<S: Sense> Play<Slot, Known<S>> for Take<S> {
    ghost use Rattle.turn_memory.specs.Lock.{Takes};

    ghost then = { Takes S.good S.budget };
}

/// The lock is given back, and nothing was committed.
pub(crate) struct Release<S> {
    sense: PhantomData<S>,
}

impl<S: Sense> Play<Slot, Known<S>> for Release<S> {
    ghost use Rattle.turn_memory.specs.Lock.{Releases};

    ghost then = { Releases };
}

/// The lock is given back, and the attempt is a commit.
pub(crate) struct Publish<S> {
    sense: PhantomData<S>,
}

impl<S: Sense> Play<Slot, Known<S>> for Publish<S> {
    ghost use Rattle.turn_memory.specs.Lock.{Publishes};

    ghost then = { Publishes };
}

/// A seat looks, and knows that its two beginnings are of one history.
pub(crate) struct Look<S> {
    sense: PhantomData<S>,
}

impl<S: Sense> Play<Slot, Known<S>> for Look<S> {
    ghost use Rattle.turn_memory.specs.Lock.{Looks};

    ghost then = { Looks S.good S.budget };
}

pub(crate) struct Halves<S> {
    sense: PhantomData<S>,
}

impl<S> Split<Known<S>> for Halves<S> {
    ghost use Rattle.turn_memory.specs.Lock.{left_known, right_known};

    ghost left = { left_known };

    ghost right = { right_known };
}

impl<S> Join<Known<S>> for Halves<S> {
    ghost use Rattle.std.specs.Prelude.{None};
    ghost use Rattle.turn_memory.specs.Lock.{both_known};

    ghost both = { both_known };

    ghost spent = { None };
}
