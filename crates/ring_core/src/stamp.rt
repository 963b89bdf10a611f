//! A stamp: the swap of the index after a check.
ghost use Rattle.std.specs.Prelude.{◌≡◌, ℕ, ◌<◌};
ghost use Rattle.ring_core.specs.Shape.{IsShape};
ghost use Rattle.ring_core.specs.Outcomes.{made, stamp_slot, stamp_swap};

use crate::action::{Later, Progress};
use crate::caller::Caller;
use crate::shape::Shape;
use crate::stage::{Stage, TurnStage};
use crate::tags::complete;
use tx_model::PassState;

impl Caller {
    /// The slot that entry `top + 1` wants has this tag.
    pub(crate) fn stamp_slot(&mut self, shape: &Shape, top: u64, tag: u64) -> Progress
        requires shape { IsShape shape.now }
        requires free { top < shape.now.life }
        ensures { made self.new result ≡ stamp_slot shape.now self.old top tag }
    {
        let next = top + 1;
        let old = next.saturating_sub(shape.ring);
        if next > shape.ring && tag < complete(old) {
            self.ends(Progress::Later {
                later: Later::SlotBusy { stamp: old, tag },
            })
        } else {
            self.goes(Stage::StampSwap { top })
        }
    }

    /// The swap of the index from `top` found this one.
    pub(crate) fn stamp_swap(&mut self, shape: &Shape, top: u64, found: u64) -> Progress
        requires shape { IsShape shape.now }
        requires free { top < shape.now.life }
        ensures { made self.new result ≡ stamp_swap self.old top found }
    {
        if found != top {
            return self.ends(Progress::Later {
                later: Later::Lost { index: found },
            });
        }
        self.state = PassState::Stamped;
        self.stamp = top + 1;
        self.stage = Stage::Between {
            stage: TurnStage::Filling,
        };
        Progress::Stamped { stamp: top + 1 }
    }
}
