//! The own segments of lanes: opening one, and putting a fresh one in front of it.
ghost use Rattle.std.specs.Prelude.{◌≡◌, ◌+◌, ◌-◌, ◌<◌, ◌≤◌, length, IfOk, IfErr, OnErr};
ghost use Rattle.tx_model.specs.declared.pass.PassState.TheVariants.{Active};
ghost use Rattle.tx_model.specs.declared.pass.TheConstants.{MAX_WRITES};
ghost use Rattle.tx_model.specs.Attempt.{MayWrite};
ghost use Rattle.tx_model.specs.Calls.{IsStopped, with_write};
ghost use Rattle.tx_heap.specs.Layout.{mail_layout};
ghost use Rattle.tx_heap.specs.Index.{IsIndex, MayGrow};
ghost use Rattle.tx_heap.specs.Fresh.{IsOwnFull, HasUnused};
ghost use Rattle.tx_heap.specs.Calls.{HoldsOverIndex, OpenedSegment, FoundUnused, MadeFresh};

use crate::plan::{FIRST_FREE, POOL};
use crate::sense::MailSense;
use tx_model::laws::{made_well, pass_knows};
use tx_model::{GATE_OPEN, Stop, TxMemory};

/// The own segment of a lane. Its gate is read, so that its words may be read and written.
pub fn open_segment<M: TxMemory<MailSense>>(
    mem: &M,
    pass: &mut M::Pass,
    lane: u64,
) -> Result<u64, Stop>
    requires of { M.of mem.now pass.old }
    requires active { (M.view pass.old).state ≡ Active }
    requires lane { lane < 8 }
    requires index { HoldsOverIndex (M.made mem.now) (M.attempt pass.old) (IsIndex mail_layout) }
    ensures of { M.of mem.now pass.new }
    ensures opened { IfOk result (OpenedSegment (M.made mem.now) (M.view pass.old) (M.view pass.new) (M.attempt pass.old) (M.attempt pass.new) lane) }
    ensures cause { IfErr result (IsStopped (M.shows mem.now) (M.made mem.now).opening (M.view pass.old) (M.view pass.new) (M.attempt pass.old)) }
{
    let plan = mem.sense().plan();
    made_well(mem, pass);
    pass_knows(mem, pass);
    let number = mem.read(pass, plan.lane(lane))?;
    pass_knows(mem, pass);
    let segment = number - 1;
    mem.read(pass, plan.gate(segment))?;
    pass_knows(mem, pass);
    Ok(segment)
}

/// Puts the first unused segment in front of a lane's own one, which is full: it is opened and empty, and the lane's own now.
pub fn fresh_segment<M: TxMemory<MailSense>>(
    mem: &M,
    pass: &mut M::Pass,
    lane: u64,
    before: u64,
) -> Result<u64, Stop>
    requires of { M.of mem.now pass.old }
    requires active { (M.view pass.old).state ≡ Active }
    requires lane { lane < 8 }
    requires room { 5 ≤ MAX_WRITES - length (M.attempt pass.old).writes }
    requires grows { HoldsOverIndex (M.made mem.now) (M.attempt pass.old) (MayGrow mail_layout) }
    requires full { HoldsOverIndex (M.made mem.now) (M.attempt pass.old) (IsOwnFull lane before) }
    ensures of { M.of mem.now pass.new }
    ensures fresh { IfOk result (MadeFresh (M.made mem.now) (M.view pass.old) (M.view pass.new) (M.attempt pass.old) (M.attempt pass.new) lane before) }
    ensures cause { IfErr result (IsStopped (M.shows mem.now) (M.made mem.now).opening (M.view pass.old) (M.view pass.new) (M.attempt pass.old)) }
{
    let plan = mem.sense().plan();
    made_well(mem, pass);
    pass_knows(mem, pass);
    let fresh = first_unused(mem, pass)?;
    pass_knows(mem, pass);
    write_word(mem, pass, plan.gate(fresh), GATE_OPEN);
    write_word(mem, pass, plan.base(fresh), FIRST_FREE);
    write_word(mem, pass, plan.link(fresh), before + 1);
    write_word(mem, pass, plan.lane(lane), fresh + 1);
    write_word(mem, pass, POOL, fresh + 1);
    Ok(fresh)
}

// Reads the pool and the gate of the first unused segment.
fn first_unused<M: TxMemory<MailSense>>(mem: &M, pass: &mut M::Pass) -> Result<u64, Stop>
    requires of { M.of mem.now pass.old }
    requires active { (M.view pass.old).state ≡ Active }
    requires index { HoldsOverIndex (M.made mem.now) (M.attempt pass.old) (IsIndex mail_layout) }
    requires unused { HoldsOverIndex (M.made mem.now) (M.attempt pass.old) HasUnused }
    ensures of { M.of mem.now pass.new }
    ensures found { IfOk result (FoundUnused (M.made mem.now) (M.view pass.old) (M.view pass.new) (M.attempt pass.old) (M.attempt pass.new)) }
    ensures cause { IfErr result (IsStopped (M.shows mem.now) (M.made mem.now).opening (M.view pass.old) (M.view pass.new) (M.attempt pass.old)) }
{
    let plan = mem.sense().plan();
    made_well(mem, pass);
    pass_knows(mem, pass);
    let fresh = mem.read(pass, POOL)?;
    pass_knows(mem, pass);
    mem.read(pass, plan.gate(fresh))?;
    pass_knows(mem, pass);
    Ok(fresh)
}

/// A write for which there is room.
pub fn write_word<M: TxMemory<MailSense>>(mem: &M, pass: &mut M::Pass, addr: u64, value: u64)
    requires of { M.of mem.now pass.old }
    requires active { (M.view pass.old).state ≡ Active }
    requires within { addr < length (M.made mem.now).opening }
    requires rule { MayWrite (M.made mem.now).regions (M.attempt pass.old) addr value }
    requires room { length (M.attempt pass.old).writes < MAX_WRITES }
    ensures of { M.of mem.now pass.new }
    ensures same { M.view pass.new ≡ M.view pass.old }
    ensures written { M.attempt pass.new ≡ with_write (M.attempt pass.old) addr value }
{
    match mem.write(pass, addr, value) {
        Ok(()) => {}
        Err(_) => unreachable!(),
    }
}
