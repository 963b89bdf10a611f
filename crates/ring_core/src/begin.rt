//! A beginning: the start of an attempt.
ghost use Rattle.std.specs.Prelude.{◌≡◌, ℕ};
ghost use Rattle.ring_core.specs.Shape.{IsShape};
ghost use Rattle.ring_core.specs.Outcomes.{made, begin_from, begin_tag};
ghost use Rattle.ring_core.specs.Sound.{IsStage};
ghost use Rattle.ring_core.specs.declared.stage.Stage.TheVariants.{BeginTag};

use crate::action::Progress;
use crate::caller::Caller;
use crate::shape::Shape;
use crate::stage::Stage;
use crate::tags::complete;

impl Caller {
    /// Looks for the start from entry `at` downwards.
    pub(crate) fn begin_from(&mut self, shape: &Shape, top: u64, at: u64) -> Progress
        ensures { made self.new result ≡ begin_from shape.now self.old top at }
    {
        let before = top.saturating_sub(shape.ring);
        if before < at {
            self.goes(Stage::BeginTag { top, at })
        } else {
            self.started(before)
        }
    }

    pub(crate) fn begin_tag(&mut self, shape: &Shape, top: u64, at: u64, tag: u64) -> Progress
        requires shape { IsShape shape.now }
        requires stage { IsStage shape.now self.old (BeginTag top at) }
        ensures { made self.new result ≡ begin_tag shape.now self.old top at tag }
    {
        if tag >= complete(at) {
            self.started(at)
        } else {
            self.begin_from(shape, top, at - 1)
        }
    }
}
