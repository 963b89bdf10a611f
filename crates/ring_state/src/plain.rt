//! What a world stores.
ghost use Rattle.std.specs.Prelude.{◌≡◌, ◌≤◌, replicate, IfOk};
ghost use Rattle.ring_core.specs.Shape.{IsShape};
ghost use Rattle.ring_worlds.specs.Runs.{MayOpen, opening_world};
ghost use Rattle.ring_state.specs.Plain.{resting_member};
ghost use Rattle.ring_state.specs.Kept.{world_of, HaveShape};

use crate::entry::Entry;
use crate::lists::{to_vec, zeros};
use crate::member::Member;
use crate::setup::{Regions, Setup, Words};
use ring_core::Shape;
use std::alloc::Global;
use tx_model::Memory;

/// What a world stores: the words of the ring, its history, and its callers.
#[derive(Drop)]
pub struct Plain {
    pub alloc: Global,
    pub shape: Shape,
    pub regions: Regions,
    /// The memory before the first commit.
    pub opening: Words,
    pub index: u64,
    /// One tag for each slot.
    pub tags: Vec<u64>,
    /// The signature words of the slots, one slot after the other.
    pub sigs: Vec<u64>,
    pub heap: Vec<u64>,
    pub history: Vec<Entry>,
    pub members: Vec<Member>,
}

impl Plain {
    /// What a world stores before its first step.
    pub fn new(alloc: Global, setup: &Setup) -> Result<Plain, Memory>
        requires open { MayOpen setup.now.shape setup.now.regions setup.now.first }
        requires callers { setup.now.callers ≤ 64 }
        ensures opens { IfOk result (λ d. world_of d ≡ opening_world setup.now.shape setup.now.regions setup.now.first setup.now.callers) }
        ensures shapes { IfOk result HaveShape }
    {
        let shape = setup.shape;
        let slots = shape.ring as usize;
        let words = slots * shape.sig_words as usize;
        let tags = zeros(alloc, slots)?;
        let sigs = zeros(alloc, words)?;
        let heap = to_vec(alloc, setup.first.as_slice())?;
        let members = resting_members(alloc, setup)?;
        Ok(Plain {
            alloc,
            shape,
            regions: setup.regions.copy(alloc)?,
            opening: setup.first.copy(alloc)?,
            index: 0,
            tags,
            sigs,
            heap,
            history: Vec::new(alloc),
            members,
        })
    }
}

/// So many callers before their first attempts.
fn resting_members(alloc: Global, setup: &Setup) -> Result<Vec<Member>, Memory>
    requires { IsShape setup.now.shape }
    ensures { IfOk result (λ members. members.items ≡ replicate setup.now.callers (resting_member setup.now.shape)) }
{
    let mut members = Vec::new(alloc);
    for _ in 0..setup.callers {
        let member = Member::new(alloc, setup.shape, setup.regions.as_slice())?;
        if members.push(member).is_err() {
            return Err(Memory);
        }
    }
    Ok(members)
}
