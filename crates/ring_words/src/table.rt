//! The table that all passes share. Its words are the index, the tags, the signature words and the heap; each seat knows
//! one caller's part of a sound world.
use atomic_table::{Join, Play, Seat, Split, Table, TableRule};
use ring_core::{Kind, Shape};
use ring_worlds::Process;
use std::alloc::Global;
use std::collections::LinkedList;
use std::marker::{Brand, PhantomData};
use std::snapshot::Snapshot;
use tx_model::{Commit, Region, Sense};

/// What the ring is made with, as the table is told it.
#[derive(Drop)]
pub struct About<S> {
    pub sense: Snapshot<S>,
    pub opening: Snapshot<Vec<u64>>,
    pub regions: Snapshot<Vec<Region>>,
    pub shape: Shape,
}

/// What a seat at the table knows. No value of it is made.
pub struct Knowledge<S> {
    pub about: About<S>,
    /// The caller as of its last step.
    pub process: Process,
    /// A beginning of the one history.
    pub history: LinkedList<Commit>,
    /// A further beginning of it, no longer than this one.
    pub other: LinkedList<Commit>,
    /// The numbers of its own commits, rising.
    pub mine: LinkedList<u64>,
    /// Its names, the newest letter first.
    pub share: LinkedList<LinkedList<bool>>,
    /// How many steps it has made, the word that the last one found, and its kind.
    pub steps: u64,
    pub found: u64,
    pub kind: Option<Kind>,
}

/// There is a sound world, whose words are the table's and whose callers are the seats'.
pub struct RingRule<S> {
    sense: PhantomData<S>,
}

/// A seat that was joined into another knows nothing.
pub type Known<S> = Option<Knowledge<S>>;

pub type Words<S> = Table<u8, Known<S>, About<S>, RingRule<S>, Global>;

pub type RingSeat<S> = Seat<u8, Known<S>>;

impl<S: Sense> TableRule<u8, Known<S>, About<S>> for RingRule<S> {
    ghost use Rattle.ring_words.specs.Ring.{IsRing, first_known};

    ghost holds = { IsRing S.good S.budget };

    ghost first = { first_known };
}

/// What the caller has become since its last step.
pub trait Moving {
    ghost use Rattle.ring_worlds.specs.declared.process.Process.{Process};

    ghost moved: { Process };
}

impl Moving for Brand {
    ghost use Rattle.ring_words.specs.Pass.{nobody};

    ghost moved = { nobody };
}

/// A load of a word, which the caller takes in.
pub(crate) struct Load<S, M> {
    of: PhantomData<(S, M)>,
}

impl<S: Sense, M: Moving> Play<u8, Known<S>> for Load<S, M> {
    ghost use Rattle.ring_words.specs.Told.{Loads};

    ghost then = { Loads S.good S.budget M.moved };
}

/// A swap of the index. Where it finds the index that it expects, the caller's commit joins the history.
pub(crate) struct Swap<S, M> {
    of: PhantomData<(S, M)>,
}

impl<S: Sense, M: Moving> Play<u8, Known<S>> for Swap<S, M> {
    ghost use Rattle.ring_words.specs.Told.{Swaps};

    ghost then = { Swaps S.good S.budget M.moved };
}

/// A store of a word by a stamped caller, which finds 0.
pub(crate) struct Store<S, M> {
    of: PhantomData<(S, M)>,
}

impl<S: Sense, M: Moving> Play<u8, Known<S>> for Store<S, M> {
    ghost use Rattle.ring_words.specs.Told.{Stores};

    ghost then = { Stores S.good S.budget M.moved };
}

/// A seat looks, and knows that its two beginnings are of one history.
pub(crate) struct Look<S> {
    sense: PhantomData<S>,
}

impl<S: Sense> Play<u8, Known<S>> for Look<S> {
    ghost use Rattle.ring_words.specs.Told.{Looks};

    ghost then = { Looks S.good S.budget };
}

pub(crate) struct Halves<S> {
    sense: PhantomData<S>,
}

impl<S> Split<Known<S>> for Halves<S> {
    ghost use Rattle.ring_words.specs.Ring.{left_known, right_known};

    ghost left = { left_known };

    ghost right = { right_known };
}

impl<S> Join<Known<S>> for Halves<S> {
    ghost use Rattle.std.specs.Prelude.{None};
    ghost use Rattle.ring_words.specs.Ring.{both_known};

    ghost both = { both_known };

    ghost spent = { None };
}
