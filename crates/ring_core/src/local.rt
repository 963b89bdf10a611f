//! One caller's machine, as others see it.
ghost use Rattle.std.specs.Prelude.{◌≡◌, ◌≢◌, ◌↔◌, ◌+◌, ◌*◌, ◌<◌, ◌≤◌, [], length, IsTrue, IsSome, IsNone, IsErr, IfOk, IfSome, IfNone, OnOk, OnErr};
ghost use Rattle.tx_model.specs.declared.pass.PassState.TheVariants as state;
ghost use Rattle.tx_model.specs.declared.pass.TheConstants.{MAX_WRITES};
ghost use Rattle.tx_model.specs.Words.{HasAddress, value_of};
ghost use Rattle.ring_core.specs.declared.stage.Stage.TheVariants.{BeginIndex, ReadHeap, Check};
ghost use Rattle.ring_core.specs.declared.stage.Purpose.TheVariants.{Stamp};
ghost use Rattle.ring_core.specs.declared.stage.CheckStage.TheVariants.{Index};
ghost use Rattle.ring_core.specs.Shape.{IsShape};
ghost use Rattle.ring_core.specs.Request.{next_action};
ghost use Rattle.ring_core.specs.Outcomes.{made, opening, read_at, absorbed};
ghost use Rattle.ring_core.specs.Steps.{walk_steps};
ghost use Rattle.ring_core.specs.Words.{CanAbsorb};
ghost use Rattle.ring_core.specs.Machine.{Machine, IsClosed, IsFull, steps_of, with_caller, at_stage, resumed, most_turn_steps, written, ended, IsKept};
ghost use Rattle.ring_core.specs.Kinds.{kind_at};
ghost use Rattle.ring_core.specs.Moves.{IsMoved};
ghost use Rattle.ring_core.specs.Sound.{IsSound};

use crate::action::{Action, Progress};
use crate::caller::Caller;
use crate::kind::Kind;
use crate::laws::move_keeps;
use crate::shape::Shape;
use crate::stage::{CheckStage, Purpose, Stage};
use crate::writes::WriteSet;
use std::alloc::Global;
use std::marker::Model;
use tx_model::laws::value_exactly;
use tx_model::{MAX_WRITES, Memory, PassState, WriteFull};

/// One caller's machine. A request is opened by a `start_` call; then `next` says which atomic step to make, and `absorb`
/// takes in the word that it found, until the answer is not `Going`.
#[derive(Drop)]
pub struct Local {
    shape: Shape,
    caller: Caller,
}

impl Model for Local {
    ghost use Rattle.ring_core.specs.Machine.{Machine, IsKept};

    ghost Value = { Machine };

    ghost view = { λ l. record { shape = l.shape; caller = l.caller } };

    ghost invariant = { λ l. IsKept l.shape l.caller };
}

impl Local {
    /// A caller without an attempt, with the room for all that an attempt may write.
    pub fn new(alloc: Global, shape: Shape) -> Result<Local, Memory>
        requires { IsShape shape }
        ensures { IfOk result (λ m. m ≡ record { shape = shape; caller = opening shape }) }
    {
        let caller = Caller::new(alloc, &shape)?;
        Ok(Local { shape, caller })
    }

    pub fn state(&self) -> PassState
        ensures { result ≡ self.now.caller.state }
    {
        self.caller.state
    }

    /// How many commits were complete where the attempt's reads were last found to agree with a state.
    pub fn start(&self) -> u64
        ensures { result ≡ self.now.caller.start }
    {
        self.caller.start
    }

    /// The number of its commit, where it is stamped.
    pub fn stamp(&self) -> u64
        ensures { result ≡ self.now.caller.stamp }
    {
        self.caller.stamp
    }

    /// How many further addresses the attempt may write.
    pub fn room(&self) -> u64
        ensures { result + length self.now.caller.writes ≡ MAX_WRITES }
    {
        MAX_WRITES as u64 - self.caller.writes.len()
    }

    /// What the attempt has written.
    pub fn writes(&self) -> &WriteSet
        ensures { result.now ≡ self.now.caller.writes }
    {
        &self.caller.writes
    }

    /// Opens a beginning.
    pub fn start_begin(&mut self)
        requires idle { self.old.caller.state ≡ state.Idle }
        requires closed { IsClosed self.old }
        ensures opened { self.new ≡ at_stage self.old BeginIndex }
        ensures moved { IsMoved self.old.shape self.old.caller self.new.caller }
        ensures steps { steps_of self.new ≤ self.old.shape.ring + 1 }
    {
        self.caller.stage = Stage::BeginIndex;
    }

    /// Answers a read from the write set, or else opens one.
    pub fn start_read(&mut self, addr: u64) -> Option<u64>
        requires active { self.old.caller.state ≡ state.Active }
        requires closed { IsClosed self.old }
        requires heap { addr < self.old.shape.heap }
        ensures value { result ≡ value_of self.old.caller.writes addr }
        ensures exactly { IsSome result ↔ HasAddress self.old.caller.writes addr }
        ensures answered { IfSome result (λ _. self.new ≡ self.old) }
        ensures opened { IfNone result (self.new ≡ at_stage self.old (ReadHeap addr)) }
        ensures moved { IfNone result (IsMoved self.old.shape self.old.caller self.new.caller) }
        ensures steps { steps_of self.new ≤ 2 + self.old.shape.ring * (self.old.shape.sig_words + 2) }
    {
        value_exactly();
        let written = self.caller.writes.value_of(addr);
        if written.is_none() {
            self.caller.stage = Stage::ReadHeap { addr };
        }
        written
    }

    /// Puts a write into the write set.
    pub fn put_write(&mut self, addr: u64, value: u64) -> Result<(), WriteFull>
        requires active { self.old.caller.state ≡ state.Active }
        requires closed { IsClosed self.old }
        requires heap { addr < self.old.shape.heap }
        ensures full { IsErr result ↔ IsFull self.old.caller addr }
        ensures ok { OnOk result (self.new ≡ with_caller self.old (written self.old.caller addr value)) }
        ensures moved { OnOk result (IsMoved self.old.shape self.old.caller self.new.caller) }
        ensures kept { OnErr result (self.new ≡ self.old) }
    {
        move_keeps();
        self.caller.write(addr, value)
    }

    /// Opens a stamp.
    pub fn start_stamp(&mut self)
        requires active { self.old.caller.state ≡ state.Active }
        requires closed { IsClosed self.old }
        requires wrote { 0 < length self.old.caller.writes }
        ensures opened { self.new ≡ at_stage self.old (Check Stamp Index) }
        ensures moved { IsMoved self.old.shape self.old.caller self.new.caller }
        ensures steps { steps_of self.new ≤ self.old.shape.ring * (self.old.shape.sig_words + 2) + 3 }
    {
        self.caller.stage = Stage::Check {
            purpose: Purpose::Stamp,
            stage: CheckStage::Index,
        };
    }

    /// Opens a turn, which goes on where the last one ended.
    pub fn start_turn(&mut self)
        requires stamped { self.old.caller.state ≡ state.Stamped }
        requires closed { IsClosed self.old }
        ensures opened { self.new ≡ at_stage self.old (resumed self.old.caller.stage) }
        ensures moved { IsMoved self.old.shape self.old.caller self.new.caller }
        ensures open { IsClosed self.new → ⊥ }
        ensures steps { steps_of self.new ≤ most_turn_steps self.old }
    {
        if let Stage::Between { stage } = self.caller.stage {
            self.caller.stage = Stage::Turn { stage };
        }
    }

    /// Ends an attempt that wrote nothing. Its reads agree with the state of this number.
    pub fn finish_read_only(&mut self) -> u64
        requires active { self.old.caller.state ≡ state.Active }
        requires closed { IsClosed self.old }
        requires nothing { self.old.caller.writes ≡ [] }
        ensures start { result ≡ self.old.caller.start }
        ensures idle { self.new ≡ ended self.old }
        ensures moved { IsMoved self.old.shape self.old.caller self.new.caller }
    {
        self.caller.end_attempt(&self.shape);
        self.caller.start
    }

    /// Ends an attempt with no commit.
    pub fn give_up(&mut self)
        requires active { self.old.caller.state ≡ state.Active }
        requires closed { IsClosed self.old }
        ensures idle { self.new ≡ ended self.old }
        ensures moved { IsMoved self.old.shape self.old.caller self.new.caller }
    {
        self.caller.end_attempt(&self.shape);
    }

    /// The next atomic step of the open request.
    pub fn next(&self) -> Action
        ensures action { result ≡ next_action self.now.shape self.now.caller }
        ensures idle { (result ≡ Action.Idle) ↔ IsClosed self.now }
        ensures sound { IsKept self.now.shape self.now.caller }
    {
        self.caller.next(&self.shape)
    }

    /// The next atomic step of a request that is known to be at this stage.
    #[inline(always)]
    pub fn next_at(&self, stage: Stage) -> Action
        requires sound { IsSound self.now.shape (at_stage self.now stage).caller }
        ensures { result ≡ next_action self.now.shape (at_stage self.now stage).caller }
    {
        self.caller.next_at(&self.shape, stage)
    }

    /// The kind of that step.
    pub fn kind(&self) -> Option<Kind>
        ensures kind { result ≡ kind_at self.now.caller.stage }
        ensures exactly { IsNone result ↔ IsClosed self.now }
    {
        self.caller.stage.kind()
    }

    /// Takes in the word that the step found: the one loaded, the index that the swap found, or 0 for a store.
    pub fn absorb(&mut self, word: u64) -> Progress
        requires { CanAbsorb self.old.shape self.old.caller word }
        ensures step { made self.new.caller result ≡ absorbed self.old.shape self.old.caller word }
        ensures shape { self.new.shape ≡ self.old.shape }
        ensures steps { steps_of self.new < steps_of self.old }
        ensures ends { (result ≢ Progress.Going) ↔ IsClosed self.new }
    {
        self.caller.absorb(&self.shape, word)
    }

    /// Takes in the word that the step of a request found that is known to be at this stage.
    #[inline]
    pub fn absorb_at(&mut self, stage: Stage, word: u64) -> Progress
        requires sound { IsSound self.old.shape (at_stage self.old stage).caller }
        requires fits { CanAbsorb self.old.shape (at_stage self.old stage).caller word }
        ensures step { made self.new.caller result ≡ absorbed self.old.shape (at_stage self.old stage).caller word }
        ensures shape { self.new.shape ≡ self.old.shape }
        ensures steps { steps_of self.new < steps_of (at_stage self.old stage) }
        ensures ends { (result ≢ Progress.Going) ↔ IsClosed self.new }
    {
        self.caller.stage = stage;
        self.absorb(word)
    }

    /// Takes in that word where the stage is known as the code is written, so that what follows from it is chosen there.
    #[inline(always)]
    pub fn take_at(&mut self, stage: Stage, word: u64) -> Progress
        requires sound { IsSound self.old.shape (at_stage self.old stage).caller }
        requires fits { CanAbsorb self.old.shape (at_stage self.old stage).caller word }
        ensures step { made self.new.caller result ≡ absorbed self.old.shape (at_stage self.old stage).caller word }
        ensures shape { self.new.shape ≡ self.old.shape }
        ensures steps { steps_of self.new < steps_of (at_stage self.old stage) }
        ensures ends { (result ≢ Progress.Going) ↔ IsClosed self.new }
    {
        self.caller.take_at(&self.shape, stage, word)
    }

    /// Takes in the word of a read that stores no stage: the address joins the read signature, and no request is open. Where the
    /// index is found to be the start, the read is over.
    #[inline]
    pub fn absorb_read(&mut self, addr: u64)
        requires active { self.old.caller.state ≡ state.Active }
        requires closed { IsClosed self.old }
        ensures { self.new ≡ with_caller self.old (read_at self.old.caller addr) }
    {
        self.caller.add_read(addr);
    }
}
