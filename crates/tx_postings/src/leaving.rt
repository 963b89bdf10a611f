//! Leaving a full segment for a fresh one.
ghost use Rattle.std.specs.Prelude.{◌≡◌, ◌<◌, IfOk, IfErr};
ghost use Rattle.tx_model.specs.declared.pass.PassState.TheVariants.{Active};
ghost use Rattle.tx_model.specs.Attempt.{starting_at};
ghost use Rattle.tx_model.specs.Calls.{IsStopped};
ghost use Rattle.tx_heap.specs.Calls.{made_sizes};
ghost use Rattle.tx_postings.specs.Leaving.{LeftFull};

use tx_buckets::read_word;
use tx_heap::{MailSense, fresh_segment, open_segment};
use tx_model::laws::pass_knows;
use tx_model::{Stop, TxMemory};

/// The number of words of a segment.
const SEGMENT_WORDS: u64 = 32_768;

/// Where a segment has its first free offset.
const FREE: u64 = 0;

/// A segment of fewer free words may not have room for a batch.
const FULL_BELOW: u64 = 128;

/// What became of a segment that was to be left.
#[derive(Debug, Clone, Copy, PartialEq, Eq)]
pub enum Leaving {
    /// This segment, which was unused, is the lane's own now. The attempt may be committed.
    Fresh { segment: u64 },
    /// The lane's own segment was this one already.
    Moved { current: u64 },
    /// The segment has so many free words, at least 128.
    Roomy { free: u64 },
}

/// Puts a fresh segment in front of a lane's own one, where that is the given one and it is full. The old one stays open.
/// After `Moved` and `Roomy` the attempt is active and has written nothing.
pub fn leave_full<M: TxMemory<MailSense>>(
    mem: &M,
    pass: &mut M::Pass,
    lane: u64,
    segment: u64,
) -> Result<Leaving, Stop>
    requires of { M.of mem.now pass.old }
    requires active { (M.view pass.old).state ≡ Active }
    requires new { M.attempt pass.old ≡ starting_at (M.attempt pass.old).start }
    requires lane { lane < 8 }
    requires segment { segment < (made_sizes (M.made mem.now)).segments }
    ensures of { M.of mem.now pass.new }
    ensures left { IfOk result (LeftFull (M.made mem.now) (M.view pass.old) (M.view pass.new) (M.attempt pass.old) (M.attempt pass.new) lane segment) }
    ensures cause { IfErr result (IsStopped (M.shows mem.now) (M.made mem.now).opening (M.view pass.old) (M.view pass.new) (M.attempt pass.old)) }
{
    let current = open_segment(mem, pass, lane)?;
    if current != segment {
        return Ok(Leaving::Moved { current });
    }
    let used = read_word(mem, pass, segment, FREE)?;
    pass_knows(mem, pass);
    let free = SEGMENT_WORDS - used;
    if free >= FULL_BELOW {
        return Ok(Leaving::Roomy { free });
    }
    let fresh = fresh_segment(mem, pass, lane, segment)?;
    Ok(Leaving::Fresh { segment: fresh })
}
