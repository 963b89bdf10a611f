//! Finding the record of a key.
ghost use Rattle.std.specs.Prelude.{◌≡◌, ◌+◌, ◌<◌, ◌≤◌, IfOk, IfErr};
ghost use Rattle.tx_model.specs.declared.pass.PassState.TheVariants.{Active};
ghost use Rattle.tx_model.specs.Calls.{IsStopped};
ghost use Rattle.tx_heap.specs.Layout.{mail_layout};
ghost use Rattle.tx_heap.specs.Index.{IsIndex};
ghost use Rattle.tx_heap.specs.Calls.{made_sizes, HoldsOverIndex};
ghost use Rattle.tx_buckets.specs.Reading.{IsOpened, FoundKey};

use crate::offsets::{HEADS, NEXT};
use crate::reading::{has_key, read_word};
use mail_words::{Key, bucket_of};
use tx_heap::MailSense;
use tx_model::laws::pass_knows;
use tx_model::{Stop, TxMemory};

/// The offset of the key's record in an open segment, or `None` where it has none.
pub fn find<M: TxMemory<MailSense>>(
    mem: &M,
    pass: &mut M::Pass,
    segment: u64,
    key: &Key,
) -> Result<Option<u64>, Stop>
    requires of { M.of mem.now pass.old }
    requires active { (M.view pass.old).state ≡ Active }
    requires opened { IsOpened (made_sizes (M.made mem.now)) (M.attempt pass.old) segment }
    requires index { HoldsOverIndex (M.made mem.now) (M.attempt pass.old) (IsIndex mail_layout) }
    ensures of { M.of mem.now pass.new }
    ensures found { IfOk result (FoundKey (M.made mem.now) (M.view pass.old) (M.view pass.new) (M.attempt pass.old) (M.attempt pass.new) segment key.now) }
    ensures cause { IfErr result (IsStopped (M.shows mem.now) (M.made mem.now).opening (M.view pass.old) (M.view pass.new) (M.attempt pass.old)) }
{
    let mut at = read_word(mem, pass, segment, HEADS + bucket_of(key))?;
    pass_knows(mem, pass);
    while at != 0 {
        if has_key(mem, pass, segment, at, key)? {
            return Ok(Some(at));
        }
        at = read_word(mem, pass, segment, at + NEXT)?;
        pass_knows(mem, pass);
    }
    Ok(None)
}
