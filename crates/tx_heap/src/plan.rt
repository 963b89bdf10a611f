//! Where the words of an index lie.
ghost use Rattle.std.specs.Prelude.{◌≡◌, ◌<◌, ◌≤◌, ◌^◌, ℕ, List, map, IfOk};
ghost use Rattle.tx_heap.specs.Layout.{segments_for, words_of, need_at, lane_at, gate_at, link_at, base_at, region_of, regions_of};

use std::alloc::Global;
use std::marker::Model;
use tx_model::{Memory, Region};

/// The number of lanes.
pub(crate) const LANES: u64 = 8;

/// The number of words of a segment.
pub(crate) const SEGMENT_WORDS: u64 = 32_768;

/// Where records begin in a segment.
pub(crate) const FIRST_FREE: u64 = 1_032;

/// The address of the number of segments in use.
pub(crate) const POOL: u64 = 0;

/// A segment that was left for a fresh one has at least so many rows.
const LEAST_ROWS: u64 = 3_952;

/// The words before the needs: the pool, the lanes and seven unused ones.
const NEEDS: u64 = 16;

/// Where the words of an index lie in a memory: for so many messages, at most 1,048,576, and so many segments, 8 to 2,130.
#[derive(Clone, Copy, Debug, PartialEq, Eq)]
pub struct Plan {
    pub messages: u64,
    pub segments: u64,
}

impl Model for Plan {
    ghost use Rattle.tx_heap.specs.Layout.{Sizes, IsWithinLimits};

    ghost Value = { Sizes };

    ghost view = { λ plan. record { messages = plan.messages; segments = plan.segments } };

    ghost invariant = { λ plan. IsWithinLimits (record { messages = plan.messages; segments = plan.segments }) };

    ghost inverse = { λ plan. record { messages = plan.messages; segments = plan.segments } };
}

impl Plan {
    /// The plan for so many messages, at most 1,048,576, and so many postings, at most 8,388,608.
    pub fn for_postings(messages: u64, postings: u64) -> Self
        requires messages { messages ≤ 1048576 }
        requires postings { postings ≤ 8388608 }
        ensures { result ≡ record { messages = messages; segments = segments_for postings } }
    {
        Plan {
            messages,
            segments: LANES + postings / LEAST_ROWS,
        }
    }

    /// The number of words.
    pub fn words(&self) -> u64
        ensures words { result ≡ words_of self.now }
        ensures most { result ≤ 2 ^ 27 }
    {
        NEEDS + self.messages + 2 * self.segments + SEGMENT_WORDS * self.segments
    }

    /// The address of the need of a message, the number of its words that are still to come. Messages count from 1.
    pub fn need(&self, message: u64) -> u64
        requires from_one { 1 ≤ message }
        requires to_last { message ≤ self.now.messages }
        ensures { result ≡ need_at message }
    {
        // The limits of the plan bound the message.
        let _ = &self.messages;
        NEEDS - 1 + message
    }

    /// The address of a lane's word: the number of its own segment, plus 1.
    pub fn lane(&self, lane: u64) -> u64
        requires { lane < 8 }
        ensures { result ≡ lane_at lane }
    {
        1 + lane
    }

    /// The address of a segment's gate.
    pub fn gate(&self, segment: u64) -> u64
        requires { segment < self.now.segments }
        ensures { result ≡ gate_at self.now segment }
    {
        NEEDS + self.messages + segment
    }

    /// The address of a segment's link: the number of the one before it in its lane, plus 1, or 0 for none.
    pub fn link(&self, segment: u64) -> u64
        requires { segment < self.now.segments }
        ensures { result ≡ link_at self.now segment }
    {
        NEEDS + self.messages + self.segments + segment
    }

    /// The address of a segment's first word.
    pub fn base(&self, segment: u64) -> u64
        requires { segment < self.now.segments }
        ensures { result ≡ base_at self.now segment }
    {
        NEEDS + self.messages + 2 * self.segments + SEGMENT_WORDS * segment
    }

    /// A segment as a region of the memory.
    pub fn region(&self, segment: u64) -> Region
        requires { segment < self.now.segments }
        ensures { result ≡ region_of self.now segment }
    {
        Region {
            gate: self.gate(segment),
            base: self.base(segment),
            len: SEGMENT_WORDS,
        }
    }

    /// The segments as regions, in order.
    pub fn regions(&self, alloc: Global) -> Result<Vec<Region>, Memory>
        ensures { IfOk result (λ regions. regions.items ≡ regions_of self.now) }
    {
        let Ok(mut regions) = Vec::with_capacity(alloc, self.segments as usize) else {
            return Err(Memory);
        };
        for segment in 0..self.segments {
            let Ok(()) = regions.push(self.region(segment)) else {
                return Err(Memory);
            };
        }
        Ok(regions)
    }
}
