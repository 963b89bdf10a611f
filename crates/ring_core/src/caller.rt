//! The plain state of one caller, and what its steps make of it.
ghost use Rattle.std.specs.Prelude.{◌≡◌, ◌↔◌, ℕ, ◌<◌, ◌≤◌, length, IfOk, IsErr, OnOk, OnErr};
ghost use Rattle.ring_core.specs.Shape.{IsShape};
ghost use Rattle.ring_core.specs.Machine.{written, IsFull};
ghost use Rattle.ring_core.specs.Request.{next_action};
ghost use Rattle.ring_core.specs.Outcomes.{made, goes, ends, started, stops, opening, idle, read_at, read_heap, absorbed};
ghost use Rattle.ring_core.specs.Words.{CanAbsorb};
ghost use Rattle.ring_core.specs.Sound.{IsSound};

use crate::action::{Action, Progress};
use crate::next::check_action;
use crate::shape::Shape;
use crate::stage::{CheckStage, Purpose, Stage};
use crate::writes::WriteSet;
use ring_sig::Sig;
use std::alloc::Global;
use tx_model::{MAX_WRITES, Memory, PassState, Stop, Word, WriteFull};

/// The plain state of one caller.
#[derive(Drop)]
pub struct Caller {
    pub state: PassState,
    /// How many commits were complete when the attempt began, or when its reads were last found to agree with a state.
    pub start: u64,
    /// The number of its commit, of a stamped caller, else 0.
    pub stamp: u64,
    /// The signature of the addresses read.
    pub read_sig: Sig,
    pub writes: WriteSet,
    /// The signature of the addresses written.
    pub write_sig: Sig,
    /// The words of an entry's signature, as far as they were loaded.
    pub loaded: [u64; 16],
    pub stage: Stage,
}

impl Caller {
    pub(crate) fn new(alloc: Global, shape: &Shape) -> Result<Caller, Memory>
        requires { IsShape shape.now }
        ensures { IfOk result (λ c. c ≡ opening shape.now) }
    {
        let writes = WriteSet::new(alloc)?;
        Ok(Caller {
            state: PassState::Idle,
            start: 0,
            stamp: 0,
            read_sig: Sig::empty(shape.sig_words),
            writes,
            write_sig: Sig::empty(shape.sig_words),
            loaded: [0; 16],
            stage: Stage::Closed,
        })
    }

    /// The request goes on at `stage`.
    pub(crate) fn goes(&mut self, stage: Stage) -> Progress
        ensures { made self.new result ≡ goes self.old stage }
    {
        self.stage = stage;
        Progress::Going
    }

    /// The request ends.
    pub(crate) fn ends(&mut self, progress: Progress) -> Progress
        ensures { made self.new result ≡ ends self.old progress }
    {
        self.stage = Stage::Closed;
        progress
    }

    /// An attempt begins.
    pub(crate) fn started(&mut self, start: u64) -> Progress
        ensures { made self.new result ≡ started self.old start }
    {
        self.state = PassState::Active;
        self.start = start;
        self.ends(Progress::Started { start })
    }

    /// A read has loaded its word.
    fn read_heap(&mut self, addr: u64, value: u64) -> Progress
        ensures { made self.new result ≡ read_heap self.old addr value }
    {
        self.add_read(addr);
        self.goes(Stage::Check {
            purpose: Purpose::Read { addr, value },
            stage: CheckStage::Index,
        })
    }

    /// The attempt is over.
    pub(crate) fn end_attempt(&mut self, shape: &Shape)
        requires { IsShape shape.now }
        ensures { self.new ≡ idle shape.now self.old }
    {
        self.state = PassState::Idle;
        self.stamp = 0;
        self.read_sig = Sig::empty(shape.sig_words);
        self.writes.clear();
        self.write_sig = Sig::empty(shape.sig_words);
        self.stage = Stage::Closed;
    }

    /// The attempt is stopped.
    pub(crate) fn stops(&mut self, shape: &Shape, stop: Stop) -> Progress
        requires { IsShape shape.now }
        ensures { made self.new result ≡ stops shape.now self.old stop }
    {
        self.end_attempt(shape);
        Progress::Stopped { stop }
    }

    /// Puts a write into the write set.
    pub(crate) fn write(&mut self, addr: u64, value: u64) -> Result<(), WriteFull>
        ensures full { IsErr result ↔ IsFull self.old addr }
        ensures ok { OnOk result (self.new ≡ written self.old addr value) }
        ensures kept { OnErr result (self.new ≡ self.old) }
    {
        if let Some(index) = self.writes.index_of(addr) {
            self.writes.set(index, Word { addr, value });
            return Ok(());
        }
        if self.writes.len() == MAX_WRITES as u64 {
            return Err(WriteFull);
        }
        self.writes.push(Word { addr, value });
        self.write_sig.add(addr);
        Ok(())
    }

    /// A read of this address has loaded its word: the address joins the read signature.
    #[inline]
    pub(crate) fn add_read(&mut self, addr: u64)
        ensures { self.new ≡ read_at self.old addr }
    {
        self.read_sig.add(addr);
    }

    /// The next atomic step.
    pub(crate) fn next(&self, shape: &Shape) -> Action
        requires shape { IsShape shape.now }
        requires sound { IsSound shape.now self.now }
        ensures { result ≡ next_action shape.now self.now }
    {
        self.next_at(shape, self.stage)
    }

    /// The next atomic step of a caller that is at this stage.
    #[inline(always)]
    pub(crate) fn next_at(&self, shape: &Shape, stage: Stage) -> Action
        requires shape { IsShape shape.now }
        requires sound { IsSound shape.now (record self.now { stage = stage }) }
        ensures { result ≡ next_action shape.now (record self.now { stage = stage }) }
    {
        match stage {
            Stage::Closed => Action::Idle,
            Stage::BeginIndex => Action::LoadIndex,
            Stage::BeginTag { at, .. } => shape.load_tag(at),
            Stage::ReadHeap { addr } => Action::LoadHeap { addr },
            Stage::Check { stage, .. } => check_action(shape, stage),
            Stage::StampSlot { top } => shape.load_tag(top + 1),
            Stage::StampSwap { top } => Action::SwapIndex { from: top },
            Stage::Turn { stage } => self.turn_action(shape, stage),
            Stage::Between { .. } => Action::Idle,
        }
    }

    /// Takes in the word that the next step found.
    pub(crate) fn absorb(&mut self, shape: &Shape, word: u64) -> Progress
        requires shape { IsShape shape.now }
        requires sound { IsSound shape.now self.old }
        requires fits { CanAbsorb shape.now self.old word }
        ensures { made self.new result ≡ absorbed shape.now self.old word }
    {
        self.take_at(shape, self.stage, word)
    }

    /// Takes in the word that the next step found of a caller that is at this stage.
    #[inline(always)]
    pub(crate) fn take_at(&mut self, shape: &Shape, stage: Stage, word: u64) -> Progress
        requires shape { IsShape shape.now }
        requires sound { IsSound shape.now (record self.old { stage = stage }) }
        requires fits { CanAbsorb shape.now (record self.old { stage = stage }) word }
        ensures { made self.new result ≡ absorbed shape.now (record self.old { stage = stage }) word }
    {
        self.stage = stage;
        match stage {
            Stage::Closed => Progress::Going,
            Stage::BeginIndex => self.begin_from(shape, word, word),
            Stage::BeginTag { top, at } => self.begin_tag(shape, top, at, word),
            Stage::ReadHeap { addr } => self.read_heap(addr, word),
            Stage::Check { purpose, stage } => self.check_after(shape, purpose, stage, word),
            Stage::StampSlot { top } => self.stamp_slot(shape, top, word),
            Stage::StampSwap { top } => self.stamp_swap(shape, top, word),
            Stage::Turn { stage } => self.turn_after(shape, stage, word),
            Stage::Between { .. } => Progress::Going,
        }
    }
}
