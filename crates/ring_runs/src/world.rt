//! A world: the ring, the memory and all callers at one moment.
ghost use Rattle.std.specs.Prelude.{◌≡◌, ◌↔◌, ◌<◌, ◌≤◌, Some, length, slice_index, IsNone, IfOk, OnErr};
ghost use Rattle.ring_core.specs.declared.kind.Kind.{Kind};
ghost use Rattle.ring_core.specs.Kinds.{kind_at};
ghost use Rattle.ring_worlds.specs.Runs.{MayOpen, opening_world};
ghost use Rattle.ring_worlds.specs.Sound.{Sound};
ghost use Rattle.ring_worlds.specs.Calls.{process_at};
ghost use Rattle.ring_worlds.specs.Moves.{IsClosed};
ghost use Rattle.ring_worlds.specs.Calls.{IsAsking, IsNext, HasMade};

use ring_core::{Kind, Local, Progress};
use ring_state::{Plain, Regions, Setup, Words};
use ring_worlds::laws::{next_step, opening_keeps, steps_keep};
use std::alloc::Global;
use std::marker::Model;
use tx_model::Memory;

/// The ring, the memory and all callers at one moment. One call of `step` is one atomic step of one caller.
#[derive(Drop)]
pub struct World {
    pub(crate) plain: Plain,
}

impl Model for World {
    ghost use Rattle.ring_worlds.specs.World as worlds;

    ghost Value = { worlds.World };

    ghost use Rattle.ring_state.specs.Kept.{world_of, IsKept};

    ghost view = { λ w. world_of w.plain };

    ghost invariant = { λ w. IsKept w.plain };
}

impl World {
    /// The world before the first step.
    pub fn of(alloc: Global, setup: &Setup) -> Result<World, Memory>
        requires open { MayOpen setup.now.shape setup.now.regions setup.now.first }
        requires some { 1 ≤ setup.now.callers }
        requires callers { setup.now.callers ≤ 64 }
        ensures { IfOk result (λ world. world ≡ opening_world setup.now.shape setup.now.regions setup.now.first setup.now.callers) }
    {
        opening_keeps();
        let plain = Plain::new(alloc, setup)?;
        Ok(World { plain })
    }

    /// Makes the next atomic step of the caller. Memory is taken where its commit joins the history, and where a read joins
    /// the reads of its attempt.
    pub fn step(&mut self, who: u64) -> Result<Progress, Memory>
        requires { IsAsking self.old who }
        ensures made { IfOk result (λ progress. HasMade self.old who progress self.new) }
        ensures kept { OnErr result (self.new ≡ self.old) }
    {
        steps_keep();
        next_step();
        self.plain.step(who)
    }

    /// How many commits the ring has had.
    pub fn index(&self) -> u64
        ensures { result ≡ self.now.index }
    {
        self.plain.index
    }

    /// The word of the memory at this address.
    pub fn word(&self, addr: u64) -> u64
        requires { addr < length self.now.heap }
        ensures { result ≡ slice_index self.now.heap addr }
    {
        self.plain.heap[addr as usize]
    }

    /// The words of the memory.
    pub(crate) fn into_words(self) -> Words
        ensures { result ≡ self.heap }
    {
        Words::of(self.plain.heap)
    }

    /// How many words the memory has.
    pub fn len(&self) -> u64
        ensures words { result ≡ length self.now.heap }
        ensures shape { result ≡ self.now.shape.heap }
    {
        self.plain.heap.len() as u64
    }

    pub fn regions(&self) -> &Regions
        ensures { result.now ≡ self.now.regions }
    {
        &self.plain.regions
    }

    /// The kind of the caller's next step, if a request is open.
    pub fn kind(&self, who: u64) -> Option<Kind>
        requires { who < length self.now.processes }
        ensures kind { result ≡ kind_at (process_at self.now who).caller.stage }
        ensures next { (kind : Kind) → result ≡ Some kind → IsNext self.now who kind }
        ensures exactly { IsNone result ↔ IsClosed (process_at self.now who) }
    {
        self.local(who).kind()
    }

    /// The machine of a caller.
    pub fn local(&self, who: u64) -> &Local
        requires { who < length self.now.processes }
        ensures { result.now.caller ≡ (process_at self.now who).caller }
    {
        let member = &self.plain.members[who as usize];
        member.local()
    }

    pub fn callers(&self) -> u64
        ensures { result ≡ length self.now.processes }
    {
        self.plain.members.len() as u64
    }

    /// How many commits the history has.
    pub fn commits(&self) -> u64
        ensures { result ≡ length self.now.history }
    {
        self.plain.history.len() as u64
    }

    /// What always holds of a world, for a proof that calls it.
    pub(crate) fn is_sound(&self)
        ensures { Sound self.now }
    {
        let _ = &self.plain;
    }
}
