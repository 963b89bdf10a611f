//! The messages of keys, read in an attempt.
ghost use Rattle.std.specs.Prelude.{◌≡◌, [], IfErr, IfOk, OnOk};
ghost use Rattle.tx_model.specs.declared.pass.PassState.TheVariants.{Active};
ghost use Rattle.tx_model.specs.Calls.{OnlyReads};
ghost use Rattle.mail_answers.specs.Reading.{GainsList, HaveRead, NotRead};

use crate::lists::ReadLists;
use crate::sorting::put_in_order;
use mail_words::{Key, laws};
use std::alloc::{AllocError, Global};
use tx_heap::MailSense;
use tx_model::TxMemory;
use tx_postings::{ListStop, list};

/// Reads the messages of the keys, in an attempt that has written nothing. After `Sealed` and `Memory` the attempt is still open.
pub(crate) fn read_lists<M: TxMemory<MailSense>>(
    alloc: Global,
    mem: &M,
    pass: &mut M::Pass,
    keys: &[Key],
) -> Result<ReadLists, ListStop>
    requires of { M.of mem.now pass.old }
    requires active { (M.view pass.old).state ≡ Active }
    requires none { ((M.attempt pass.old).writes ≡ []) × ((M.attempt pass.old).published ≡ []) }
    ensures of { M.of mem.now pass.new }
    ensures read { IfOk result (λ read. HaveRead (M.made mem.now) (M.view pass.old) (M.view pass.new) (M.attempt pass.old) (M.attempt pass.new) keys.now
        read.lists) }
    ensures refused { IfErr result (NotRead (M.made mem.now) (M.shows mem.now) (M.view pass.old) (M.view pass.new) (M.attempt pass.old) (M.attempt pass.new)) }
{
    let mut read = ReadLists::new(alloc);
    for key in keys {
        read_list(alloc, mem, pass, key, &mut read)?;
    }
    Ok(read)
}

// Reads the messages of a key, unless they were read.
fn read_list<M: TxMemory<MailSense>>(
    alloc: Global,
    mem: &M,
    pass: &mut M::Pass,
    key: &Key,
    read: &mut ReadLists,
) -> Result<(), ListStop>
    requires of { M.of mem.now pass.old }
    requires active { (M.view pass.old).state ≡ Active }
    requires none { ((M.attempt pass.old).writes ≡ []) × ((M.attempt pass.old).published ≡ []) }
    ensures of { M.of mem.now pass.new }
    ensures only { OnOk result (OnlyReads (M.view pass.old) (M.view pass.new) (M.attempt pass.old) (M.attempt pass.new)) }
    ensures gains { OnOk result (GainsList (M.made mem.now) (M.view pass.new) (M.attempt pass.new) key.now read.old.lists read.new.lists) }
    ensures refused { IfErr result (NotRead (M.made mem.now) (M.shows mem.now) (M.view pass.old) (M.view pass.new) (M.attempt pass.old) (M.attempt pass.new)) }
{
    laws::keys_are_totally_ordered();
    if read.has(key) {
        return Ok(());
    }
    let mut messages = Vec::new(alloc);
    list(mem, pass, key, &mut messages)?;
    put_in_order(&mut messages);
    match read.put(key, messages) {
        Ok(()) => Ok(()),
        Err(AllocError) => Err(ListStop::Memory),
    }
}
