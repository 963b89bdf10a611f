//! The rule of regions, tested for a caller's attempt.
ghost use Rattle.std.specs.Prelude.{◌≡◌, ◌↔◌, IsTrue};
ghost use Rattle.tx_model.specs.Made.{IsIn};
ghost use Rattle.tx_model.specs.Words.{value_of};
ghost use Rattle.tx_model.specs.Attempt.{gate_value, MayRead, MayWrite};
ghost use Rattle.ring_worlds.specs.World.{attempt_of};
ghost use Rattle.ring_state.specs.Plain.{process_of};
ghost use Rattle.ring_state.specs.Rule.{IsReadable, IsWritable, LetsRead, LetsWrite};

use crate::member::Member;
use tx_model::laws::value_exactly;
use tx_model::{GATE_OPEN, GATE_PACKED, GATE_UNUSED, Region};

impl Member {
    /// The attempt may read this word.
    pub fn may_read(&self, regions: &[Region], addr: u64) -> bool
        ensures { IsTrue result ↔ MayRead regions.now (attempt_of (process_of self.now)) addr }
    {
        for region in regions {
            if !self.lets_read(region, addr) {
                return false;
            }
        }
        true
    }

    /// The attempt may write this value there.
    pub fn may_write(&self, regions: &[Region], addr: u64, value: u64) -> bool
        ensures { IsTrue result ↔ MayWrite regions.now (attempt_of (process_of self.now)) addr value }
    {
        for region in regions {
            if !self.lets_write(region, addr, value) {
                return false;
            }
        }
        true
    }

    /// This region lets the attempt read the word.
    fn lets_read(&self, region: &Region, addr: u64) -> bool
        ensures { IsTrue result ↔ LetsRead (attempt_of (process_of self.now)) addr region.now }
    {
        !is_in(region, addr) || self.is_readable(region.gate)
    }

    /// This region lets the attempt write the value there.
    fn lets_write(&self, region: &Region, addr: u64, value: u64) -> bool
        ensures { IsTrue result ↔ LetsWrite (attempt_of (process_of self.now)) addr value region.now }
    {
        if addr == region.gate
            && !(value == GATE_OPEN && self.gate_value(addr) == Some(GATE_UNUSED))
        {
            return false;
        }
        !is_in(region, addr) || self.is_writable(region.gate)
    }

    fn is_readable(&self, gate: u64) -> bool
        ensures { IsTrue result ↔ IsReadable (attempt_of (process_of self.now)) gate }
    {
        value_exactly();
        let value = self.gate_value(gate);
        self.read_value(gate).is_some() && (value == Some(GATE_OPEN) || value == Some(GATE_PACKED))
    }

    fn is_writable(&self, gate: u64) -> bool
        ensures { IsTrue result ↔ IsWritable (attempt_of (process_of self.now)) gate }
    {
        value_exactly();
        self.read_value(gate).is_some() && self.gate_value(gate) == Some(GATE_OPEN)
    }

    /// The value of a gate in the attempt: what it wrote there, else what it read there.
    fn gate_value(&self, gate: u64) -> Option<u64>
        ensures { result ≡ gate_value (attempt_of (process_of self.now)) gate }
    {
        match self.local().writes().value_of(gate) {
            Some(value) => Some(value),
            None => self.read_value(gate),
        }
    }
}

/// The word is one of the region.
fn is_in(region: &Region, addr: u64) -> bool
    ensures { IsTrue result ↔ IsIn addr region.now }
{
    region.base <= addr && addr - region.base < region.len
}
