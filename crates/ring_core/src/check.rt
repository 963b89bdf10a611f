//! The check of the entries after the start.
ghost use Rattle.std.specs.Prelude.{◌≡◌, ℕ, ◌^◌, ◌<◌, ◌≤◌, length};
ghost use Rattle.ring_core.specs.Tags.{complete};
ghost use Rattle.ring_core.specs.Shape.{IsShape};
ghost use Rattle.ring_core.specs.Outcomes.{made, below, candidate_after, checked, check_from, unpublished, is_worn, check_index, check_first, check_words, check_second, check_after};
ghost use Rattle.ring_core.specs.Sound.{IsWalk, IsSized, IsCheckStage};
ghost use Rattle.ring_core.specs.Words.{IsCheckWord};

use crate::action::{Later, Progress};
use crate::caller::Caller;
use crate::shape::Shape;
use crate::stage::{CheckStage, Purpose, Stage, Walk};
use crate::tags::{complete, entry_of, writing};
use ring_sig::Sig;
use tx_model::Stop;

impl Walk {
    /// The walk at the entry before.
    fn below(self, candidate: u64) -> Walk
        requires { 1 ≤ self.at }
        ensures { result ≡ below self candidate }
    {
        Walk {
            top: self.top,
            at: self.at - 1,
            candidate,
        }
    }

    /// What the start may become after an entry with this tag: one that is still writing is not passed.
    fn candidate_after(self, tag: u64) -> u64
        requires some { 1 ≤ self.at }
        requires fits { complete self.at < 2 ^ 64 }
        ensures { result ≡ candidate_after self tag }
    {
        if tag == writing(self.at) {
            self.candidate.min(self.at - 1)
        } else {
            self.candidate
        }
    }
}

fn is_worn(shape: &Shape, purpose: Purpose, index: u64) -> bool
    ensures { result ≡ is_worn shape.now purpose index }
{
    match purpose {
        Purpose::Read { .. } => false,
        Purpose::Stamp => index == shape.life,
    }
}

impl Caller {
    /// The end of a check.
    fn checked(&mut self, purpose: Purpose, walk: Walk) -> Progress
        ensures { made self.new result ≡ checked self.old purpose walk }
    {
        self.start = walk.candidate;
        match purpose {
            Purpose::Read { value, .. } => self.ends(Progress::Value { value }),
            Purpose::Stamp => self.goes(Stage::StampSlot { top: walk.top }),
        }
    }

    fn check_from(&mut self, purpose: Purpose, walk: Walk) -> Progress
        ensures { made self.new result ≡ check_from self.old purpose walk }
    {
        if self.start < walk.at {
            self.goes(Stage::Check {
                purpose,
                stage: CheckStage::First { walk },
            })
        } else {
            self.checked(purpose, walk)
        }
    }

    fn check_index(&mut self, shape: &Shape, purpose: Purpose, index: u64) -> Progress
        requires shape { IsShape shape.now }
        requires above { self.old.start ≤ index }
        requires lived { index ≤ shape.now.life }
        ensures { made self.new result ≡ check_index shape.now self.old purpose index }
    {
        if is_worn(shape, purpose, index) {
            self.end_attempt(shape);
            return Progress::Worn { index };
        }
        if index - self.start > shape.ring {
            let stamp = self.start + 1;
            return self.stops(shape, Stop::Overrun { stamp, seen: index });
        }
        self.check_from(
            purpose,
            Walk {
                top: index,
                at: index,
                candidate: index,
            },
        )
    }

    fn unpublished(&mut self, purpose: Purpose, walk: Walk, tag: u64) -> Progress
        requires { 1 ≤ walk.at }
        ensures { made self.new result ≡ unpublished self.old purpose walk tag }
    {
        match purpose {
            Purpose::Read { .. } => {
                let candidate = walk.candidate.min(walk.at - 1);
                self.check_from(purpose, walk.below(candidate))
            }
            Purpose::Stamp => self.ends(Progress::Later {
                later: Later::Unpublished {
                    stamp: walk.at,
                    tag,
                },
            }),
        }
    }

    fn check_first(&mut self, shape: &Shape, purpose: Purpose, walk: Walk, tag: u64) -> Progress
        requires shape { IsShape shape.now }
        requires walk { IsWalk shape.now self.old.start purpose walk }
        ensures { made self.new result ≡ check_first shape.now self.old purpose walk tag }
    {
        let stamp = walk.at;
        if tag > complete(stamp) {
            return self.stops(
                shape,
                Stop::Overrun {
                    stamp,
                    seen: entry_of(tag),
                },
            );
        }
        if tag < writing(stamp) {
            return self.unpublished(purpose, walk, tag);
        }
        self.goes(Stage::Check {
            purpose,
            stage: CheckStage::Words { walk, word: 0 },
        })
    }

    fn check_words(
        &mut self,
        shape: &Shape,
        purpose: Purpose,
        walk: Walk,
        word: u64,
        value: u64,
    ) -> Progress
        requires shape { IsShape shape.now }
        requires below { word < shape.now.sig_words }
        ensures { made self.new result ≡ check_words shape.now self.old purpose walk word value }
    {
        self.loaded[word as usize] = value;
        let stage = if word + 1 < shape.sig_words {
            CheckStage::Words {
                walk,
                word: word + 1,
            }
        } else {
            CheckStage::Second { walk }
        };
        self.goes(Stage::Check { purpose, stage })
    }

    fn check_second(&mut self, shape: &Shape, purpose: Purpose, walk: Walk, tag: u64) -> Progress
        requires shape { IsShape shape.now }
        requires walk { IsWalk shape.now self.old.start purpose walk }
        requires wide { length self.old.read_sig ≡ shape.now.sig_words }
        ensures { made self.new result ≡ check_second shape.now self.old purpose walk tag }
    {
        let stamp = walk.at;
        if tag > complete(stamp) {
            return self.stops(
                shape,
                Stop::Overrun {
                    stamp,
                    seen: entry_of(tag),
                },
            );
        }
        let loaded = Sig::of_words(shape.sig_words, &self.loaded);
        if loaded.meets(&self.read_sig) {
            return self.stops(shape, Stop::Met { stamp });
        }
        self.check_from(purpose, walk.below(walk.candidate_after(tag)))
    }

    pub(crate) fn check_after(
        &mut self,
        shape: &Shape,
        purpose: Purpose,
        stage: CheckStage,
        word: u64,
    ) -> Progress
        requires shape { IsShape shape.now }
        requires stage { IsCheckStage shape.now self.old.start purpose stage }
        requires wide { length self.old.read_sig ≡ shape.now.sig_words }
        requires fits { IsCheckWord shape.now self.old stage word }
        ensures { made self.new result ≡ check_after shape.now self.old purpose stage word }
    {
        match stage {
            CheckStage::Index => self.check_index(shape, purpose, word),
            CheckStage::First { walk } => self.check_first(shape, purpose, walk, word),
            CheckStage::Words { walk, word: j } => self.check_words(shape, purpose, walk, j, word),
            CheckStage::Second { walk } => self.check_second(shape, purpose, walk, word),
        }
    }
}
