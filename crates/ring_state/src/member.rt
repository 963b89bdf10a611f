//! One caller, as a world stores it.
ghost use Rattle.std.specs.Prelude.{◌≡◌, ◌↔◌, ◌<◌, [], length, vec_len, vec_capacity, IsSome, IsErr, IfSome, IfNone, IfOk, OnOk, OnErr};
ghost use Rattle.tx_model.specs.declared.pass.PassState.TheVariants.{Idle, Active, Stamped};
ghost use Rattle.tx_model.specs.Words.{HasAddress, value_of};
ghost use Rattle.ring_core.specs.declared.stage.Stage.TheVariants.{BeginIndex, ReadHeap, Check};
ghost use Rattle.ring_core.specs.declared.stage.Purpose.TheVariants.{Stamp};
ghost use Rattle.ring_core.specs.declared.stage.CheckStage.TheVariants.{Index};
ghost use Rattle.ring_core.specs.Shape.{IsShape};
ghost use Rattle.ring_core.specs.Machine.{IsClosed, IsFull, with_caller, at_stage, written, resumed};
ghost use Rattle.ring_core.specs.Request.{next_action};
ghost use Rattle.ring_core.specs.Outcomes.{absorbed};
ghost use Rattle.ring_core.specs.Words.{CanAbsorb};
ghost use Rattle.ring_worlds.specs.declared.process.Process.{Process};
ghost use Rattle.ring_worlds.specs.World.{front_after, commit_of};
ghost use Rattle.ring_state.specs.Gates.{KnowGates};
ghost use Rattle.ring_state.specs.Plain.{read_address, resting_member, process_of, with_machine, ended_member, after_word, reads_with, still_asked};

use crate::entry::Entry;
use crate::gates::GateReads;
use crate::lists::make_room;
use ring_core::{Action, Local, Progress, Shape};
use std::alloc::Global;
use std::marker::Model;
use tx_model::{Memory, Region, Word, WriteFull};

/// One caller: its machine, and what it knows beside it.
#[derive(Drop)]
pub struct Member {
    local: Local,
    /// The address that the open read asks for.
    asked: Option<u64>,
    /// So many commits are known to be complete.
    front: u64,
    /// What its attempt read, but for what it had written itself.
    reads: Vec<Word>,
    gates: GateReads,
}

impl Model for Member {
    ghost use Rattle.std.specs.Prelude.{◌≡◌};
    ghost use Rattle.ring_state.specs.Gates.{KnowGates};
    ghost use Rattle.ring_state.specs.Plain.{MemberView, read_address};

    ghost Value = { MemberView };

    ghost view = { λ m. record { machine = m.local; front = m.front; reads = m.reads.items } };

    ghost invariant = { λ m. (m.asked ≡ read_address m.local.caller.stage) × KnowGates m.gates m.reads.items };
}

#[tactic(auto, using(crate::proofs::Answered::closed_reads))]
impl Member {
    /// A caller before its first attempt.
    pub fn new(alloc: Global, shape: Shape, regions: &[Region]) -> Result<Member, Memory>
        requires { IsShape shape }
        ensures { IfOk result (λ m. m ≡ resting_member shape) }
    {
        let local = Local::new(alloc, shape)?;
        Ok(Member {
            local,
            asked: None,
            front: 0,
            reads: Vec::new(alloc),
            gates: GateReads::of(alloc, regions)?,
        })
    }

    pub fn local(&self) -> &Local
        ensures { result.now ≡ self.now.machine }
    {
        &self.local
    }

    /// The address that its open read asks for.
    pub fn asked(&self) -> Option<u64>
        ensures { result ≡ read_address self.now.machine.caller.stage }
    {
        self.asked
    }

    /// The value that its attempt has read first at this address, if it has.
    pub(crate) fn read_value(&self, addr: u64) -> Option<u64>
        ensures { result ≡ value_of self.now.reads addr }
    {
        self.gates.value_of(self.reads.as_slice(), addr)
    }

    /// The next atomic step.
    pub fn next(&self) -> Action
        ensures { result ≡ next_action self.now.machine.shape self.now.machine.caller }
    {
        self.local.next()
    }

    /// The commit of its attempt.
    pub fn entry(&self, alloc: Global) -> Result<Entry, Memory>
        ensures { IfOk result (λ entry. entry ≡ commit_of (process_of self.now)) }
    {
        Entry::new(alloc, self.reads.as_slice(), self.local.writes())
    }

    /// Takes in the word that the next step found. Memory is taken only where a read may join the reads.
    pub fn absorb(&mut self, word: u64) -> Result<Progress, Memory>
        requires { CanAbsorb self.old.machine.shape self.old.machine.caller word }
        ensures step { IfOk result (λ _. self.new ≡ after_word self.old word) }
        ensures answer { IfOk result (λ progress. progress ≡ (absorbed self.old.machine.shape self.old.machine.caller word).progress) }
        ensures kept { OnErr result (self.new ≡ self.old) }
    {
        make_room_for(&mut self.reads, &mut self.gates, self.asked)?;
        let start = self.local.start();
        let progress = self.local.absorb(word);
        note(&mut self.reads, &mut self.gates, self.asked, progress);
        self.front = front_after(self.front, start, progress);
        self.asked = still_asked(self.asked, progress);
        Ok(progress)
    }

    /// Opens a beginning.
    pub fn begin(&mut self)
        requires idle { self.old.machine.caller.state ≡ Idle }
        requires closed { IsClosed self.old.machine }
        ensures { self.new ≡ with_machine self.old (at_stage self.old.machine BeginIndex) }
    {
        self.local.start_begin();
    }

    /// Answers a read from the write set, or else opens one.
    pub fn read(&mut self, addr: u64) -> Option<u64>
        requires active { self.old.machine.caller.state ≡ Active }
        requires closed { IsClosed self.old.machine }
        requires heap { addr < self.old.machine.shape.heap }
        ensures value { result ≡ value_of self.old.machine.caller.writes addr }
        ensures exactly { IsSome result ↔ HasAddress self.old.machine.caller.writes addr }
        ensures answered { IfSome result (λ _. self.new ≡ self.old) }
        ensures opened { IfNone result (self.new ≡ with_machine self.old (at_stage self.old.machine (ReadHeap addr))) }
    {
        let written = self.local.start_read(addr);
        if written.is_none() {
            self.asked = Some(addr);
        }
        written
    }

    /// Puts a write into the write set.
    pub fn write(&mut self, addr: u64, value: u64) -> Result<(), WriteFull>
        requires active { self.old.machine.caller.state ≡ Active }
        requires closed { IsClosed self.old.machine }
        requires heap { addr < self.old.machine.shape.heap }
        ensures full { IsErr result ↔ IsFull self.old.machine.caller addr }
        ensures ok { OnOk result (self.new ≡ with_machine self.old (with_caller self.old.machine (written self.old.machine.caller addr value))) }
        ensures kept { OnErr result (self.new ≡ self.old) }
    {
        self.local.put_write(addr, value)
    }

    /// Opens a stamp.
    pub fn stamp(&mut self)
        requires active { self.old.machine.caller.state ≡ Active }
        requires closed { IsClosed self.old.machine }
        requires wrote { 0 < length self.old.machine.caller.writes }
        ensures { self.new ≡ with_machine self.old (at_stage self.old.machine (Check Stamp Index)) }
    {
        self.local.start_stamp();
    }

    /// Opens a turn.
    pub fn turn(&mut self)
        requires stamped { self.old.machine.caller.state ≡ Stamped }
        requires closed { IsClosed self.old.machine }
        ensures { self.new ≡ with_machine self.old (at_stage self.old.machine (resumed self.old.machine.caller.stage)) }
    {
        self.local.start_turn();
    }

    /// Ends an attempt that wrote nothing, and answers the state that it read from.
    pub fn done(&mut self) -> u64
        requires active { self.old.machine.caller.state ≡ Active }
        requires closed { IsClosed self.old.machine }
        requires nothing { self.old.machine.caller.writes ≡ [] }
        ensures start { result ≡ self.old.machine.caller.start }
        ensures idle { self.new ≡ ended_member self.old }
    {
        let start = self.local.finish_read_only();
        self.front = self.front.max(start);
        self.reads.clear();
        self.gates.clear();
        start
    }

    /// Ends an attempt with no commit.
    pub fn give_up(&mut self)
        requires active { self.old.machine.caller.state ≡ Active }
        requires closed { IsClosed self.old.machine }
        ensures { self.new ≡ ended_member self.old }
    {
        let start = self.local.start();
        self.local.give_up();
        self.front = self.front.max(start);
        self.reads.clear();
        self.gates.clear();
    }
}

/// Makes room for the read that is asked for.
fn make_room_for(
    reads: &mut Vec<Word>,
    gates: &mut GateReads,
    asked: Option<u64>,
) -> Result<(), Memory>
    ensures kept { reads.new.items ≡ reads.old.items }
    ensures known { KnowGates gates.old reads.old.items → KnowGates gates.new reads.new.items }
    ensures room { OnOk result (IsSome asked → vec_len reads.new < vec_capacity reads.new) }
    ensures gate_room { OnOk result (IsSome asked → vec_len gates.new.reads < vec_capacity gates.new.reads) }
{
    if asked.is_none() {
        return Ok(());
    }
    make_room(reads)?;
    gates.reserve()
}

/// The reads after an answer.
fn note(reads: &mut Vec<Word>, gates: &mut GateReads, asked: Option<u64>, progress: Progress)
    requires room { IsSome asked → vec_len reads.old < vec_capacity reads.old }
    requires gate_room { IsSome asked → vec_len gates.old.reads < vec_capacity gates.old.reads }
    requires known { KnowGates gates.old reads.old.items }
    ensures reads { reads.new.items ≡ reads_with asked reads.old.items progress }
    ensures gates { KnowGates gates.new reads.new.items }
{
    match progress {
        Progress::Value { value } => {
            if let Some(addr) = asked {
                let read = Word { addr, value };
                gates.note(read);
                reads.push_reserved(read);
            }
        }
        Progress::Started { .. }
        | Progress::Stopped { .. }
        | Progress::Completed { .. }
        | Progress::Worn { .. } => {
            reads.clear();
            gates.clear();
        }
        Progress::Going | Progress::Stamped { .. } | Progress::Later { .. } => {}
    }
}

/// How many commits are known to be complete after an answer.
fn front_after(front: u64, start: u64, progress: Progress) -> u64
    ensures { (p : Process) → p.front ≡ front → p.caller.start ≡ start → result ≡ front_after p progress }
{
    match progress {
        Progress::Stopped { .. } | Progress::Worn { .. } => front.max(start),
        Progress::Completed { stamp } => front.max(stamp),
        _ => front,
    }
}

/// The address that is asked for after an answer.
fn still_asked(asked: Option<u64>, progress: Progress) -> Option<u64>
    ensures { result ≡ still_asked asked progress }
{
    match progress {
        Progress::Going => asked,
        _ => None,
    }
}
