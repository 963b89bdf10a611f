//! The messages of a key in the open segments of its lane.
ghost use Rattle.std.specs.Prelude.{◌≡◌, ◌<◌, [], IfOk, IfErr, Contains};
ghost use Rattle.tx_model.specs.History.{IsBeginning};
ghost use Rattle.tx_model.specs.declared.pass.PassState.TheVariants.{Active};
ghost use Rattle.mail_words.specs.Hash as hash;
ghost use Rattle.tx_heap.specs.Layout.{mail_layout};
ghost use Rattle.tx_heap.specs.Heap.{lane_segments};
ghost use Rattle.tx_heap.specs.Index.{IsIndex};
ghost use Rattle.tx_heap.specs.Calls.{made_sizes, HoldsOverIndex};
ghost use Rattle.tx_buckets.specs.Reading.{IsOpened};
ghost use Rattle.tx_postings.specs.Listing.{Listed, ListedOpen, ListedAt, ListedTo, NotListed, NotListedAt, NotListedOpen};

use mail_words::{Key, lane_of};
use thiserror::Error;
use tx_buckets::{find, read_word};
use tx_heap::MailSense;
use tx_model::laws::{made_well, pass_knows};
use tx_model::{GATE_OPEN, GATE_SEALED, Stop, TxMemory};

/// Where a record has the offset of its newest cell.
const NEWEST: u64 = 5;

/// Where a cell has the offset of the next one.
const NEXT_CELL: u64 = 1;

/// Why the messages of a key weren't listed.
#[derive(Debug, Clone, Copy, PartialEq, Eq, Error)]
pub enum ListStop {
    /// A read was stopped. The attempt is over.
    #[error("{stop}")]
    Stopped { stop: Stop },
    /// The gate of this segment, one of the key's lane, was read as sealed. The attempt is still open.
    #[error("segment {segment} is sealed")]
    Sealed { segment: u64 },
    /// Want of memory. The attempt is still open.
    #[error("no memory")]
    Memory,
}

impl From<Stop> for ListStop {
    ghost use Rattle.std.specs.Prelude.{◌≡◌};
    ghost use Rattle.tx_postings.specs.declared.listing.ListStop.TheVariants.{Stopped};

    ghost from_gives = { λ stop e. e ≡ Stopped stop };

    fn from(stop: Stop) -> Self {
        ListStop::Stopped { stop }
    }
}

/// Adds the messages of a key in the open segments of its lane, the newest segment first and the newest message of each first.
/// Packed segments are passed over. After a refusal what `into` held is still its beginning; after `Sealed` and `Memory`
/// the attempt is still open.
pub fn list<M: TxMemory<MailSense>>(
    mem: &M,
    pass: &mut M::Pass,
    key: &Key,
    into: &mut Vec<u64>,
) -> Result<(), ListStop>
    requires of { M.of mem.now pass.old }
    requires active { (M.view pass.old).state ≡ Active }
    requires none { ((M.attempt pass.old).writes ≡ []) × ((M.attempt pass.old).published ≡ []) }
    ensures of { M.of mem.now pass.new }
    ensures old_part { IsBeginning into.old.items into.new.items }
    ensures listed { IfOk result (λ _. Listed (M.made mem.now) (M.view pass.old) (M.view pass.new) (M.attempt pass.old) (M.attempt pass.new) key.now
        into.old.items into.new.items) }
    ensures refused { IfErr result
        (NotListed (M.made mem.now) (M.shows mem.now) (M.view pass.old) (M.view pass.new) (M.attempt pass.old) (M.attempt pass.new) key.now
        into.old.items into.new.items) }
{
    let plan = mem.sense().plan();
    made_well(mem, pass);
    pass_knows(mem, pass);
    let mut number = mem.read(pass, plan.lane(lane_of(key)))?;
    pass_knows(mem, pass);
    while number != 0 {
        number = list_to(mem, pass, number - 1, key, into)?;
        pass_knows(mem, pass);
    }
    Ok(())
}

// Adds the messages of the key in a segment of its lane, and answers the segment's link.
fn list_to<M: TxMemory<MailSense>>(
    mem: &M,
    pass: &mut M::Pass,
    segment: u64,
    key: &Key,
    into: &mut Vec<u64>,
) -> Result<u64, ListStop>
    requires of { M.of mem.now pass.old }
    requires active { (M.view pass.old).state ≡ Active }
    requires none { ((M.attempt pass.old).writes ≡ []) × ((M.attempt pass.old).published ≡ []) }
    requires within { segment < (made_sizes (M.made mem.now)).segments }
    requires of_lane { HoldsOverIndex (M.made mem.now) (M.attempt pass.old)
        (λ heap. Contains (lane_segments heap (hash.lane_of key.now)) segment) }
    ensures of { M.of mem.now pass.new }
    ensures old_part { IsBeginning into.old.items into.new.items }
    ensures listed { IfOk result (ListedTo (M.made mem.now) (M.view pass.old) (M.view pass.new) (M.attempt pass.old) (M.attempt pass.new) key.now
        into.old.items into.new.items segment) }
    ensures refused { IfErr result
        (NotListedAt (M.made mem.now) (M.shows mem.now) (M.view pass.old) (M.view pass.new) (M.attempt pass.old) (M.attempt pass.new) key.now
        into.old.items into.new.items segment) }
{
    list_at(mem, pass, segment, key, into)?;
    let plan = mem.sense().plan();
    made_well(mem, pass);
    pass_knows(mem, pass);
    Ok(mem.read(pass, plan.link(segment))?)
}

// Adds the messages of the key in a segment of its lane, by its gate.
fn list_at<M: TxMemory<MailSense>>(
    mem: &M,
    pass: &mut M::Pass,
    segment: u64,
    key: &Key,
    into: &mut Vec<u64>,
) -> Result<(), ListStop>
    requires of { M.of mem.now pass.old }
    requires active { (M.view pass.old).state ≡ Active }
    requires none { ((M.attempt pass.old).writes ≡ []) × ((M.attempt pass.old).published ≡ []) }
    requires within { segment < (made_sizes (M.made mem.now)).segments }
    requires of_lane { HoldsOverIndex (M.made mem.now) (M.attempt pass.old)
        (λ heap. Contains (lane_segments heap (hash.lane_of key.now)) segment) }
    ensures of { M.of mem.now pass.new }
    ensures old_part { IsBeginning into.old.items into.new.items }
    ensures listed { IfOk result (λ _. ListedAt (M.made mem.now) (M.view pass.old) (M.view pass.new) (M.attempt pass.old) (M.attempt pass.new) key.now
        into.old.items into.new.items segment) }
    ensures refused { IfErr result
        (NotListedAt (M.made mem.now) (M.shows mem.now) (M.view pass.old) (M.view pass.new) (M.attempt pass.old) (M.attempt pass.new) key.now
        into.old.items into.new.items segment) }
{
    let plan = mem.sense().plan();
    made_well(mem, pass);
    pass_knows(mem, pass);
    let gate = mem.read(pass, plan.gate(segment))?;
    pass_knows(mem, pass);
    if gate == GATE_OPEN {
        list_open(mem, pass, segment, key, into)?;
        return Ok(());
    }
    if gate == GATE_SEALED {
        return Err(ListStop::Sealed { segment });
    }
    Ok(())
}

// Adds the messages of the key's record in an open segment, the newest first.
fn list_open<M: TxMemory<MailSense>>(
    mem: &M,
    pass: &mut M::Pass,
    segment: u64,
    key: &Key,
    into: &mut Vec<u64>,
) -> Result<(), ListStop>
    requires of { M.of mem.now pass.old }
    requires active { (M.view pass.old).state ≡ Active }
    requires opened { IsOpened (made_sizes (M.made mem.now)) (M.attempt pass.old) segment }
    requires index { HoldsOverIndex (M.made mem.now) (M.attempt pass.old) (IsIndex mail_layout) }
    ensures of { M.of mem.now pass.new }
    ensures old_part { IsBeginning into.old.items into.new.items }
    ensures listed { IfOk result (λ _. ListedOpen (M.made mem.now) (M.view pass.old) (M.view pass.new) (M.attempt pass.old) (M.attempt pass.new) key.now
        into.old.items into.new.items segment) }
    ensures refused { IfErr result
        (NotListedOpen (M.made mem.now) (M.shows mem.now) (M.view pass.old) (M.view pass.new) (M.attempt pass.old) (M.attempt pass.new) key.now
        into.old.items into.new.items) }
{
    let Some(offset) = find(mem, pass, segment, key)? else {
        return Ok(());
    };
    pass_knows(mem, pass);
    let mut cell = read_word(mem, pass, segment, offset + NEWEST)?;
    pass_knows(mem, pass);
    while cell != 0 {
        let message = read_word(mem, pass, segment, cell)?;
        let Ok(()) = into.push(message) else {
            return Err(ListStop::Memory);
        };
        cell = read_word(mem, pass, segment, cell + NEXT_CELL)?;
        pass_knows(mem, pass);
    }
    Ok(())
}
