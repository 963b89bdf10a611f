//! The next atomic step of a check or a turn.
ghost use Rattle.std.specs.Prelude.{◌≡◌, ℕ, ◌<◌, ◌≤◌, length};
ghost use Rattle.tx_model.specs.Words.{word_at};
ghost use Rattle.ring_core.specs.Shape.{IsShape};
ghost use Rattle.ring_core.specs.Request.{slot_of, check_action, turn_action};
ghost use Rattle.ring_core.specs.Sound.{IsStamped, IsTurnStage};
ghost use Rattle.ring_core.specs.declared.action.Action.TheVariants.{LoadTag, StoreHeap};

use crate::action::Action;
use crate::caller::Caller;
use crate::shape::Shape;
use crate::stage::{CheckStage, TurnStage};
use crate::tags::{complete, filling, writing};

impl Shape {
    /// The slot of an entry. Where the number of slots is a power of two no division is made.
    #[inline(always)]
    fn slot(&self, entry: u64) -> u64
        requires { 1 ≤ self.now.ring }
        ensures { result ≡ slot_of self.now entry }
    {
        let bits = self.ring.trailing_zeros();
        if 1u64.wrapping_shl(bits) == self.ring {
            return entry & (self.ring - 1);
        }
        entry % self.ring
    }

    #[inline(always)]
    pub(crate) fn load_tag(&self, entry: u64) -> Action
        requires { 1 ≤ self.now.ring }
        ensures { result ≡ LoadTag (slot_of self.now entry) }
    {
        Action::LoadTag {
            slot: self.slot(entry),
        }
    }
}

#[inline(always)]
pub(crate) fn check_action(shape: &Shape, stage: CheckStage) -> Action
    requires { 1 ≤ shape.now.ring }
    ensures { result ≡ check_action shape.now stage }
{
    match stage {
        CheckStage::Index => Action::LoadIndex,
        CheckStage::First { walk } => shape.load_tag(walk.at),
        CheckStage::Words { walk, word } => Action::LoadSig {
            slot: shape.slot(walk.at),
            word,
        },
        CheckStage::Second { walk } => shape.load_tag(walk.at),
    }
}

impl Caller {
    #[inline(always)]
    pub(crate) fn turn_action(&self, shape: &Shape, stage: TurnStage) -> Action
        requires shape { IsShape shape.now }
        requires stamped { IsStamped shape.now self.now.state self.now.writes self.now.start self.now.stamp }
        requires stage { IsTurnStage shape.now self.now stage }
        requires wide { length self.now.write_sig ≡ shape.now.sig_words }
        ensures { result ≡ turn_action shape.now self.now stage }
    {
        let slot = shape.slot(self.stamp);
        match stage {
            TurnStage::Filling => Action::StoreTag {
                slot,
                tag: filling(self.stamp),
            },
            TurnStage::Signature { word } => Action::StoreSig {
                slot,
                word,
                value: self.write_sig.word(word),
            },
            TurnStage::Writing => Action::StoreTag {
                slot,
                tag: writing(self.stamp),
            },
            TurnStage::Earlier { at } => shape.load_tag(at),
            TurnStage::EarlierWords { at, word } => Action::LoadSig {
                slot: shape.slot(at),
                word,
            },
            TurnStage::EarlierAgain { at } => shape.load_tag(at),
            TurnStage::Heap { index } => self.store_heap(index),
            TurnStage::Before => shape.load_tag(self.stamp - 1),
            TurnStage::Complete => Action::StoreTag {
                slot,
                tag: complete(self.stamp),
            },
        }
    }

    fn store_heap(&self, index: u64) -> Action
        requires { index < length self.now.writes }
        ensures { result ≡ StoreHeap (word_at self.now.writes index).addr (word_at self.now.writes index).value }
    {
        let write = self.writes.at(index as usize);
        Action::StoreHeap {
            addr: write.addr,
            value: write.value,
        }
    }
}
