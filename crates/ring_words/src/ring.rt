//! The ring that threads share.
ghost use Rattle.std.specs.Prelude.{◌≡◌, length};
ghost use Rattle.ring_core.specs.Shape.{IsShape};
ghost use Rattle.ring_words.specs.Layout.{table_size};

use crate::table::Words;
use ring_core::Shape;
use std::alloc::Global;
use tx_model::Sense;

/// A transaction memory on a ring of commits, which several threads use at once.
pub struct Ring<S: Sense> {
    pub(crate) words: Words<S>,
    pub(crate) sense: S,
    pub(crate) shape: Shape,
    pub(crate) alloc: Global,
    ghost told: { (words.shared.key.sense.value ≡ sense) × (words.shared.key.shape ≡ shape) × (length words.shared.key.opening.value.items ≡ shape.heap) },
    ghost sized: { (words.shared.table_id.words ≡ table_size shape) × (words.shared.table_id.slots ≡ 0) },
    ghost limits: { IsShape shape },
}
