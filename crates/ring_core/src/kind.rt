//! The kinds of atomic step.
ghost use Rattle.std.specs.Prelude.{◌≡◌, Some};
ghost use Rattle.ring_core.specs.Kinds.{check_kind, turn_kind, kind_at};

use crate::stage::{CheckStage, Stage, TurnStage};

/// What an atomic step does, and to which of the shared words. The three stores of a tag differ by the phase that begins.
#[derive(Clone, Copy, Debug, PartialEq, Eq)]
pub enum Kind {
    LoadIndex,
    LoadTag,
    LoadSig,
    LoadHeap,
    /// A compare-and-swap of the index.
    SwapIndex,
    StoreTagFilling,
    StoreSig,
    StoreTagWriting,
    StoreHeap,
    StoreTagComplete,
}

impl Stage {
    /// The kind of the next step, if a request is open.
    pub(crate) fn kind(self) -> Option<Kind>
        ensures { result ≡ kind_at self }
    {
        match self {
            Stage::Closed | Stage::Between { .. } => None,
            Stage::BeginIndex => Some(Kind::LoadIndex),
            Stage::ReadHeap { .. } => Some(Kind::LoadHeap),
            Stage::BeginTag { .. } | Stage::StampSlot { .. } => Some(Kind::LoadTag),
            Stage::StampSwap { .. } => Some(Kind::SwapIndex),
            Stage::Check { stage, .. } => Some(stage.kind()),
            Stage::Turn { stage } => Some(stage.kind()),
        }
    }
}

impl CheckStage {
    fn kind(self) -> Kind
        ensures { result ≡ check_kind self }
    {
        match self {
            CheckStage::Index => Kind::LoadIndex,
            CheckStage::First { .. } | CheckStage::Second { .. } => Kind::LoadTag,
            CheckStage::Words { .. } => Kind::LoadSig,
        }
    }
}

impl TurnStage {
    fn kind(self) -> Kind
        ensures { result ≡ turn_kind self }
    {
        match self {
            TurnStage::Filling => Kind::StoreTagFilling,
            TurnStage::Signature { .. } => Kind::StoreSig,
            TurnStage::Writing => Kind::StoreTagWriting,
            TurnStage::Earlier { .. } | TurnStage::EarlierAgain { .. } | TurnStage::Before => {
                Kind::LoadTag
            }
            TurnStage::EarlierWords { .. } => Kind::LoadSig,
            TurnStage::Heap { .. } => Kind::StoreHeap,
            TurnStage::Complete => Kind::StoreTagComplete,
        }
    }
}
