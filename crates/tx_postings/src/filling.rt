//! Adding the next words of a message to an index, within an attempt.
ghost use Rattle.std.specs.Prelude.{◌≡◌, ◌-◌, ◌≤◌, [], length, take, drop, slice_index_or, IfOk, IfErr};
ghost use Rattle.std.specs.List.Sorted.{IsStrictlySortedBy};
ghost use Rattle.mail_words.specs.Key.{key_cmp};
ghost use Rattle.tx_model.specs.declared.pass.PassState.TheVariants.{Active};
ghost use Rattle.tx_model.specs.Attempt.{starting_at};
ghost use Rattle.tx_heap.specs.Calls.{made_sizes};
ghost use Rattle.tx_heap.specs.Index.{list_of};
ghost use Rattle.tx_postings.specs.Filled.{Filled, NotFilled};

use crate::looking::look_up;
use crate::posting::put_all;
use crate::stops::FillStop;
use mail_words::{Key, WordLists};
use tx_heap::{MailSense, write_word};
use tx_model::TxMemory;
use tx_model::laws::{made_well, pass_knows};

/// The most words of a batch.
const MOST_KEYS: usize = 16;

/// The number of lanes.
const LANES: usize = 8;

/// Adds the next words of a message to the index, at most 16, each to the own segment of its lane, and lowers the message's need.
/// Answers the need that is left. The attempt may be committed then; where the need was 0 already it has written nothing.
/// After a refusal the attempt is over.
pub fn fill_batch<M: TxMemory<MailSense>>(
    mem: &M,
    pass: &mut M::Pass,
    message: u64,
) -> Result<u64, FillStop>
    requires of { M.of mem.now pass.old }
    requires active { (M.view pass.old).state ≡ Active }
    requires new { M.attempt pass.old ≡ starting_at (M.attempt pass.old).start }
    requires from_one { 1 ≤ message }
    requires to_last { message ≤ (made_sizes (M.made mem.now)).messages }
    ensures of { M.of mem.now pass.new }
    ensures filled { IfOk result (Filled (M.made mem.now) (M.view pass.old) (M.view pass.new) (M.attempt pass.old) (M.attempt pass.new) message) }
    ensures refused { IfErr result (NotFilled (M.made mem.now) (M.shows mem.now) (M.view pass.old) (M.view pass.new) (M.attempt pass.old) message) }
{
    let plan = mem.sense().plan();
    made_well(mem, pass);
    pass_knows(mem, pass);
    let need = mem.read(pass, plan.need(message))?;
    pass_knows(mem, pass);
    if need == 0 {
        return Ok(0);
    }
    let keys = next_keys(mem.sense().lists(), message, need as usize);
    let mut offsets = [None; MOST_KEYS];
    let mut heads = [None; LANES];
    look_up(mem, pass, keys, &mut offsets, &mut heads)?;
    put_all(mem, pass, message, keys, &offsets, &mut heads)?;
    pass_knows(mem, pass);
    let left = need - keys.len() as u64;
    write_word(mem, pass, plan.need(message), left);
    Ok(left)
}

// The next keys of a message's list, of which so many are still to come.
fn next_keys(lists: &WordLists, message: u64, need: usize) -> &[Key]
    requires from_one { 1 ≤ message }
    requires to_last { message ≤ length lists.now }
    requires need { need ≤ length (list_of lists.now message) }
    ensures keys { result.now ≡ take 16 (drop (length (list_of lists.now message) - need) (list_of lists.now message)) }
    ensures rises { IsStrictlySortedBy key_cmp (list_of lists.now message) }
{
    let list = lists.list(message);
    let rest = &list[list.len() - need..];
    &rest[..rest.len().min(MOST_KEYS)]
}
