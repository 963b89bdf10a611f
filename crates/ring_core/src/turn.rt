//! A turn: the writing back of an entry.
ghost use Rattle.std.specs.Prelude.{◌≡◌, ℕ, ◌^◌, ◌<◌, ◌≤◌, length};
ghost use Rattle.ring_core.specs.Tags.{complete};
ghost use Rattle.ring_core.specs.Shape.{IsShape};
ghost use Rattle.ring_core.specs.Outcomes.{made, waits, earlier_from, turn_signature, turn_earlier, compared, turn_words, turn_again, turn_heap, turn_before, turn_after};
ghost use Rattle.ring_core.specs.Sound.{IsStamped, IsEarlier, IsTurnStage};

use crate::action::{Later, Progress};
use crate::caller::Caller;
use crate::shape::Shape;
use crate::stage::{Stage, TurnStage};
use crate::tags::complete;
use ring_sig::Sig;

impl Caller {
    fn waits(&mut self, stage: TurnStage, stamp: u64, tag: u64) -> Progress
        ensures { made self.new result ≡ waits self.old stage stamp tag }
    {
        self.stage = Stage::Between { stage };
        Progress::Later {
            later: Later::Order { stamp, tag },
        }
    }

    /// The next entry to wait for is `at` or an earlier one after the start.
    fn earlier_from(&mut self, at: u64) -> Progress
        ensures { made self.new result ≡ earlier_from self.old at }
    {
        let stage = if self.start < at {
            TurnStage::Earlier { at }
        } else {
            TurnStage::Heap { index: 0 }
        };
        self.goes(Stage::Turn { stage })
    }

    fn turn_signature(&mut self, shape: &Shape, word: u64) -> Progress
        requires shape { IsShape shape.now }
        requires below { word < shape.now.sig_words }
        ensures { made self.new result ≡ turn_signature shape.now self.old word }
    {
        let stage = if word + 1 < shape.sig_words {
            TurnStage::Signature { word: word + 1 }
        } else {
            TurnStage::Writing
        };
        self.goes(Stage::Turn { stage })
    }

    fn turn_earlier(&mut self, at: u64, tag: u64) -> Progress
        requires some { 1 ≤ at }
        requires fits { complete at < 2 ^ 64 }
        ensures { made self.new result ≡ turn_earlier self.old at tag }
    {
        if tag >= complete(at) {
            self.earlier_from(at - 1)
        } else {
            self.goes(Stage::Turn {
                stage: TurnStage::EarlierWords { at, word: 0 },
            })
        }
    }

    /// All words of entry `at` are loaded.
    fn compared(&mut self, shape: &Shape, at: u64) -> Progress
        requires shape { IsShape shape.now }
        requires some { 1 ≤ at }
        requires wide { length self.old.write_sig ≡ shape.now.sig_words }
        ensures { made self.new result ≡ compared shape.now self.old at }
    {
        let loaded = Sig::of_words(shape.sig_words, &self.loaded);
        if loaded.meets(&self.write_sig) {
            self.goes(Stage::Turn {
                stage: TurnStage::EarlierAgain { at },
            })
        } else {
            self.earlier_from(at - 1)
        }
    }

    fn turn_words(&mut self, shape: &Shape, at: u64, word: u64, value: u64) -> Progress
        requires shape { IsShape shape.now }
        requires some { 1 ≤ at }
        requires below { word < shape.now.sig_words }
        requires wide { length self.old.write_sig ≡ shape.now.sig_words }
        ensures { made self.new result ≡ turn_words shape.now self.old at word value }
    {
        self.loaded[word as usize] = value;
        if word + 1 < shape.sig_words {
            self.goes(Stage::Turn {
                stage: TurnStage::EarlierWords { at, word: word + 1 },
            })
        } else {
            self.compared(shape, at)
        }
    }

    fn turn_again(&mut self, at: u64, tag: u64) -> Progress
        requires some { 1 ≤ at }
        requires fits { complete at < 2 ^ 64 }
        ensures { made self.new result ≡ turn_again self.old at tag }
    {
        if tag >= complete(at) {
            self.earlier_from(at - 1)
        } else {
            self.waits(TurnStage::EarlierAgain { at }, at, tag)
        }
    }

    fn turn_heap(&mut self, index: u64) -> Progress
        requires { index < length self.old.writes }
        ensures { made self.new result ≡ turn_heap self.old index }
    {
        let count = self.writes.len();
        let stage = if index + 1 < count {
            TurnStage::Heap { index: index + 1 }
        } else if self.stamp == 1 {
            TurnStage::Complete
        } else {
            TurnStage::Before
        };
        self.goes(Stage::Turn { stage })
    }

    fn turn_before(&mut self, tag: u64) -> Progress
        requires some { 1 ≤ self.old.stamp }
        requires fits { complete self.old.stamp < 2 ^ 64 }
        ensures { made self.new result ≡ turn_before self.old tag }
    {
        let before = self.stamp - 1;
        if tag >= complete(before) {
            self.goes(Stage::Turn {
                stage: TurnStage::Complete,
            })
        } else {
            self.waits(TurnStage::Before, before, tag)
        }
    }

    #[inline(always)]
    pub(crate) fn turn_after(&mut self, shape: &Shape, stage: TurnStage, word: u64) -> Progress
        requires shape { IsShape shape.now }
        requires stamped { IsStamped shape.now self.old.state self.old.writes self.old.start self.old.stamp }
        requires stage { IsTurnStage shape.now self.old stage }
        requires wide { length self.old.write_sig ≡ shape.now.sig_words }
        ensures { made self.new result ≡ turn_after shape.now self.old stage word }
    {
        match stage {
            TurnStage::Filling => self.goes(Stage::Turn {
                stage: TurnStage::Signature { word: 0 },
            }),
            TurnStage::Signature { word: j } => self.turn_signature(shape, j),
            TurnStage::Writing => {
                let before = self.stamp - 1;
                self.earlier_from(before)
            }
            TurnStage::Earlier { at } => self.turn_earlier(at, word),
            TurnStage::EarlierWords { at, word: j } => self.turn_words(shape, at, j, word),
            TurnStage::EarlierAgain { at } => self.turn_again(at, word),
            TurnStage::Heap { index } => self.turn_heap(index),
            TurnStage::Before => self.turn_before(word),
            TurnStage::Complete => {
                let stamp = self.stamp;
                self.end_attempt(shape);
                Progress::Completed { stamp }
            }
        }
    }
}
