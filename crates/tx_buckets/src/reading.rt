//! Reads of the words of an open segment.
ghost use Rattle.std.specs.Prelude.{◌≡◌, ◌+◌, ◌<◌, ◌≤◌, IfOk, IfErr};
ghost use Rattle.tx_model.specs.declared.pass.PassState.TheVariants.{Active};
ghost use Rattle.tx_model.specs.Calls.{IsStopped};
ghost use Rattle.tx_heap.specs.Calls.{made_sizes};
ghost use Rattle.tx_buckets.specs.Reading.{IsOpened, ReadWord, ReadKey};

use mail_words::Key;
use tx_heap::MailSense;
use tx_model::laws::{made_well, pass_knows};
use tx_model::{Stop, TxMemory};

/// The word at an offset of an open segment.
pub fn read_word<M: TxMemory<MailSense>>(
    mem: &M,
    pass: &mut M::Pass,
    segment: u64,
    offset: u64,
) -> Result<u64, Stop>
    requires of { M.of mem.now pass.old }
    requires active { (M.view pass.old).state ≡ Active }
    requires inside { offset < 32768 }
    requires opened { IsOpened (made_sizes (M.made mem.now)) (M.attempt pass.old) segment }
    ensures of { M.of mem.now pass.new }
    ensures word { IfOk result (ReadWord (M.made mem.now) (M.view pass.old) (M.view pass.new) (M.attempt pass.old) (M.attempt pass.new) segment offset) }
    ensures cause { IfErr result (IsStopped (M.shows mem.now) (M.made mem.now).opening (M.view pass.old) (M.view pass.new) (M.attempt pass.old)) }
{
    let plan = mem.sense().plan();
    made_well(mem, pass);
    pass_knows(mem, pass);
    mem.read(pass, plan.base(segment) + offset)
}

// Whether the record at an offset has the key. It reads no further than to the first number that differs.
pub(crate) fn has_key<M: TxMemory<MailSense>>(
    mem: &M,
    pass: &mut M::Pass,
    segment: u64,
    at: u64,
    key: &Key,
) -> Result<bool, Stop>
    requires of { M.of mem.now pass.old }
    requires active { (M.view pass.old).state ≡ Active }
    requires inside { at + 4 ≤ 32768 }
    requires opened { IsOpened (made_sizes (M.made mem.now)) (M.attempt pass.old) segment }
    ensures of { M.of mem.now pass.new }
    ensures key { IfOk result (ReadKey (M.made mem.now) (M.view pass.old) (M.view pass.new) (M.attempt pass.old) (M.attempt pass.new) segment at key.now) }
    ensures cause { IfErr result (IsStopped (M.shows mem.now) (M.made mem.now).opening (M.view pass.old) (M.view pass.new) (M.attempt pass.old)) }
{
    let first = read_word(mem, pass, segment, at)?;
    if first != key.k0 {
        return Ok(false);
    }
    let second = read_word(mem, pass, segment, at + 1)?;
    if second != key.k1 {
        return Ok(false);
    }
    let third = read_word(mem, pass, segment, at + 2)?;
    if third != key.k2 {
        return Ok(false);
    }
    let fourth = read_word(mem, pass, segment, at + 3)?;
    Ok(fourth == key.k3)
}
