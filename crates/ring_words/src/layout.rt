//! Where a word of the ring lies in the table.
ghost use Rattle.std.specs.Prelude.{◌≡◌, ◌<◌};
ghost use Rattle.ring_core.specs.Shape.{IsShape};
ghost use Rattle.ring_words.specs.Layout.{index_at, table_size, IsInside};

use ring_core::{Action, Shape};

/// The index in the table of the word that a step touches.
pub(crate) fn index_of(shape: &Shape, action: Action) -> usize
    requires limits { IsShape shape.now }
    requires inside { IsInside shape.now action }
    ensures { result ≡ index_at shape.now action }
{
    match action {
        Action::LoadTag { slot } => 1 + slot as usize,
        Action::StoreTag { slot, .. } => 1 + slot as usize,
        Action::LoadSig { slot, word } | Action::StoreSig { slot, word, .. } => (1
            + shape.ring
            + (slot * shape.sig_words + word)) as usize,
        Action::LoadHeap { addr } | Action::StoreHeap { addr, .. } => {
            (1 + shape.ring + shape.ring * shape.sig_words + addr) as usize
        }
        Action::LoadIndex | Action::SwapIndex { .. } | Action::Idle => 0,
    }
}
