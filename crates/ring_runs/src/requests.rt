//! What a caller does without a step: it opens a request, writes, or ends its attempt.
ghost use Rattle.std.specs.Prelude.{◌≡◌, ◌↔◌, ◌<◌, [], length, IsErr, IfSome, IfNone, OnOk, OnErr};
ghost use Rattle.tx_model.specs.declared.pass.PassState.TheVariants.{Idle, Stamped};
ghost use Rattle.tx_model.specs.Words.{value_of};
ghost use Rattle.tx_model.specs.Attempt.{MayRead, MayWrite};
ghost use Rattle.ring_core.specs.declared.stage.Stage.TheVariants.{BeginIndex, ReadHeap, Check};
ghost use Rattle.ring_core.specs.declared.stage.Purpose.TheVariants.{Stamp};
ghost use Rattle.ring_core.specs.declared.stage.CheckStage.TheVariants.{Index};
ghost use Rattle.ring_core.specs.Machine.{resumed, IsFull};
ghost use Rattle.ring_worlds.specs.World.{attempt_of, with_process};
ghost use Rattle.ring_worlds.specs.Moves.{IsClosed, IsBetween, at_stage, with_written, ended, Moves};
ghost use Rattle.ring_worlds.specs.Calls.{process_at};

use crate::world::World;
use ring_worlds::laws::moves_keep;
use tx_model::WriteFull;

impl World {
    /// Opens a beginning.
    pub fn begin(&mut self, who: u64)
        requires here { who < length self.old.processes }
        requires idle { (process_at self.old who).caller.state ≡ Idle }
        requires closed { IsClosed (process_at self.old who) }
        ensures moves { Moves self.old who self.new }
        ensures begun { self.new ≡ with_process self.old who (at_stage (process_at self.old who) BeginIndex) }
    {
        moves_keep();
        let member = &mut self.plain.members[who as usize];
        member.begin();
    }

    /// Answers a read from the write set, or else opens one.
    pub fn read(&mut self, who: u64, addr: u64) -> Option<u64>
        requires here { who < length self.old.processes }
        requires between { IsBetween (process_at self.old who) }
        requires heap { addr < self.old.shape.heap }
        requires may { MayRead self.old.regions (attempt_of (process_at self.old who)) addr }
        ensures value { result ≡ value_of (process_at self.old who).caller.writes addr }
        ensures moves { Moves self.old who self.new }
        ensures answered { IfSome result (λ _. self.new ≡ self.old) }
        ensures asked { IfNone result (self.new ≡ with_process self.old who (at_stage (process_at self.old who) (ReadHeap addr))) }
    {
        moves_keep();
        let member = &mut self.plain.members[who as usize];
        member.read(addr)
    }

    /// Puts a write into the write set.
    pub fn write(&mut self, who: u64, addr: u64, value: u64) -> Result<(), WriteFull>
        requires here { who < length self.old.processes }
        requires between { IsBetween (process_at self.old who) }
        requires heap { addr < self.old.shape.heap }
        requires may { MayWrite self.old.regions (attempt_of (process_at self.old who)) addr value }
        ensures full { IsErr result ↔ IsFull (process_at self.old who).caller addr }
        ensures moves { OnOk result (Moves self.old who self.new) }
        ensures wrote { OnOk result (self.new ≡ with_process self.old who (with_written (process_at self.old who) addr value)) }
        ensures kept { OnErr result (self.new ≡ self.old) }
    {
        moves_keep();
        let member = &mut self.plain.members[who as usize];
        member.write(addr, value)
    }

    /// Opens a stamp.
    pub fn stamp(&mut self, who: u64)
        requires here { who < length self.old.processes }
        requires between { IsBetween (process_at self.old who) }
        requires wrote { 0 < length (process_at self.old who).caller.writes }
        ensures moves { Moves self.old who self.new }
        ensures stamps { self.new ≡ with_process self.old who (at_stage (process_at self.old who) (Check Stamp Index)) }
    {
        moves_keep();
        let member = &mut self.plain.members[who as usize];
        member.stamp();
    }

    /// Opens a turn, which goes on where the last one ended.
    pub fn turn(&mut self, who: u64)
        requires here { who < length self.old.processes }
        requires stamped { (process_at self.old who).caller.state ≡ Stamped }
        requires closed { IsClosed (process_at self.old who) }
        ensures moves { Moves self.old who self.new }
        ensures turns { self.new ≡ with_process self.old who (at_stage (process_at self.old who) (resumed (process_at self.old who).caller.stage)) }
    {
        moves_keep();
        let member = &mut self.plain.members[who as usize];
        member.turn();
    }

    /// Ends an attempt that wrote nothing, and answers the state that it read from.
    pub fn done(&mut self, who: u64) -> u64
        requires here { who < length self.old.processes }
        requires between { IsBetween (process_at self.old who) }
        requires nothing { (process_at self.old who).caller.writes ≡ [] }
        ensures start { result ≡ (process_at self.old who).caller.start }
        ensures moves { Moves self.old who self.new }
        ensures ends { self.new ≡ with_process self.old who (ended self.old.shape (process_at self.old who)) }
    {
        moves_keep();
        let member = &mut self.plain.members[who as usize];
        member.done()
    }

    /// Ends an attempt with no commit.
    pub fn give_up(&mut self, who: u64)
        requires here { who < length self.old.processes }
        requires between { IsBetween (process_at self.old who) }
        ensures moves { Moves self.old who self.new }
        ensures ends { self.new ≡ with_process self.old who (ended self.old.shape (process_at self.old who)) }
    {
        moves_keep();
        let member = &mut self.plain.members[who as usize];
        member.give_up();
    }
}
