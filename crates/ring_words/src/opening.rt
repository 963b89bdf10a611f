//! How a ring opens.
ghost use Rattle.std.specs.Prelude.{◌≡◌, ◌+◌, ◌*◌, ◌≤◌, ◌++◌, IfOk, length, replicate};
ghost use Rattle.ring_sig.specs.Signature.{IsWordCount};
ghost use Rattle.tx_model.specs.Made.{IsMade};
ghost use Rattle.ring_core.specs.Shape.{IsShape};
ghost use Rattle.ring_words.specs.Pass.{made_with, shape_with, first_pass, made_by, shape_by, IsOf, view_of};

use crate::pass::RingPass;
use crate::ring::Ring;
use crate::table::About;
use atomic_table::Table;
use ring_core::{Local, Shape};
use ring_worlds::laws::opening_keeps;
use std::alloc::Global;
use std::snapshot::Snapshot;
use tx_model::{Memory, Region, Sense};

// The words of the table before the first commit: the index, the tags and the signature words are 0.
fn opening_words(alloc: Global, shape: &Shape, first: &[u64]) -> Result<Vec<u64>, Memory>
    requires limits { IsShape shape.now }
    requires room { length first.now ≡ shape.now.heap }
    ensures { IfOk result (λ v. v.items ≡ replicate (1 + shape.now.ring + shape.now.ring * shape.now.sig_words) 0 ++ first.now) }
{
    let zeros = (1 + shape.ring + shape.ring * shape.sig_words) as usize;
    let Ok(mut words) = Vec::with_capacity(alloc, zeros + first.len()) else {
        return Err(Memory);
    };
    if words.resize(zeros, 0).is_err() || words.extend_from_slice(first).is_err() {
        return Err(Memory);
    }
    Ok(words)
}

impl<S: Sense + Drop> Ring<S> {
    /// A memory with these words, on a ring of so many entries with signatures of so many words, and its first pass.
    pub fn new(
        alloc: Global,
        sense: S,
        first: Vec<u64>,
        regions: Vec<Region>,
        ring: u64,
        sig_words: u64,
        life: u64,
    ) -> Result<(Ring<S>, RingPass<S>), Memory>
        requires made { IsMade S.allows S.good (made_with sense first.items regions.items life) }
        requires entries { (1 ≤ ring) × (ring ≤ 4096) }
        requires signatures { IsWordCount sig_words }
        ensures made { IfOk result (λ r. made_by r.0 ≡ made_with sense first.items regions.items life) }
        ensures shape { IfOk result (λ r. shape_by r.0 ≡ shape_with ring sig_words (length first.items) life) }
        ensures of { IfOk result (λ r. IsOf S.allows S.good S.budget r.0 r.1) }
        ensures view { IfOk result (λ r. view_of r.1 ≡ first_pass) }
    {
        opening_keeps();
        let shape = Shape {
            ring,
            sig_words,
            heap: first.len() as u64,
            life,
        };
        let about = About {
            sense: Snapshot::of(&sense),
            opening: Snapshot::of(&first),
            regions: Snapshot::of(&regions),
            shape,
        };
        let local = Local::new(alloc, shape)?;
        let opening = opening_words(alloc, &shape, first.as_slice())?;
        drop(first);
        let Ok((words, seat)) = Table::of_words(alloc, opening.as_slice(), &about) else {
            return Err(Memory);
        };
        let ring = Ring {
            words,
            sense,
            shape,
            alloc,
        };
        let pass = RingPass {
            local,
            seat,
            seals: 0,
        };
        Ok((ring, pass))
    }
}
