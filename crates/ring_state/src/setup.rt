//! What a world is opened with.
ghost use Rattle.std.specs.Prelude.{◌≡◌, IfOk};

use crate::lists::to_vec;
use ring_core::Shape;
use std::alloc::Global;
use std::marker::Model;
use tx_model::{Memory, Region};

/// What a world is opened with.
#[derive(Drop)]
pub struct Setup {
    pub shape: Shape,
    /// How many callers there are.
    pub callers: u64,
    pub regions: Regions,
    /// The words of the memory before the first commit.
    pub first: Words,
}

/// Regions, which contracts see as their list.
#[derive(Drop)]
pub struct Regions {
    items: Vec<Region>,
}

impl Model for Regions {
    ghost use Rattle.std.specs.Prelude.{List};
    ghost use Rattle.tx_model.specs.declared.gate.Region.{Region};

    ghost Value = { List Region };

    ghost view = { λ r. r.items.items };
}

impl Regions {
    pub fn of(items: Vec<Region>) -> Regions
        ensures { result ≡ items.items }
    {
        Regions { items }
    }

    pub fn as_slice(&self) -> &[Region]
        ensures { result.now ≡ self.now }
    {
        self.items.as_slice()
    }

    pub(crate) fn copy(&self, alloc: Global) -> Result<Regions, Memory>
        ensures { IfOk result (λ copy. copy ≡ self.now) }
    {
        let items = to_vec(alloc, self.items.as_slice())?;
        Ok(Regions { items })
    }
}

/// Words of a memory, which contracts see as their list.
#[derive(Drop)]
pub struct Words {
    items: Vec<u64>,
}

impl Model for Words {
    ghost use Rattle.std.specs.Prelude.{List, ℕ};

    ghost Value = { List ℕ };

    ghost view = { λ w. w.items.items };
}

impl Words {
    pub fn of(items: Vec<u64>) -> Words
        ensures { result ≡ items.items }
    {
        Words { items }
    }

    pub fn as_slice(&self) -> &[u64]
        ensures { result.now ≡ self.now }
    {
        self.items.as_slice()
    }

    pub(crate) fn copy(&self, alloc: Global) -> Result<Words, Memory>
        ensures { IfOk result (λ copy. copy ≡ self.now) }
    {
        let items = to_vec(alloc, self.items.as_slice())?;
        Ok(Words { items })
    }
}
