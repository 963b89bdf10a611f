//! One commit, as a world stores it.
ghost use Rattle.std.specs.Prelude.{◌≡◌, [], IfOk};
ghost use Rattle.tx_model.specs.declared.history.Commit.{Commit};

use crate::lists::to_vec;
use ring_core::WriteSet;
use std::alloc::Global;
use std::marker::Model;
use tx_model::{Memory, Word};

/// One commit of the history: what it read and what it wrote. It sealed and published nothing.
#[derive(Drop)]
pub struct Entry {
    reads: Vec<Word>,
    writes: Vec<Word>,
}

impl Model for Entry {
    ghost use Rattle.std.specs.Prelude.{[]};
    ghost use Rattle.tx_model.specs.declared.history.Commit.{Commit};

    ghost Value = { Commit };

    ghost view = { λ e. record { reads = e.reads.items; writes = e.writes.items; sealed = []; published = []; carry = [] } };
}

impl Entry {
    /// The commit of an attempt that read and wrote these words.
    pub fn new(alloc: Global, reads: &[Word], writes: &WriteSet) -> Result<Entry, Memory>
        ensures { IfOk result (λ entry. entry ≡ record { reads = reads.now; writes = writes.now; sealed = []; published = []; carry = [] }) }
    {
        let reads = to_vec(alloc, reads)?;
        let writes = copied(alloc, writes)?;
        Ok(Entry { reads, writes })
    }
}

fn copied(alloc: Global, writes: &WriteSet) -> Result<Vec<Word>, Memory>
    ensures { IfOk result (λ words. words.items ≡ writes.now) }
{
    let count = writes.len() as usize;
    let Ok(mut words) = Vec::with_capacity(alloc, count) else {
        return Err(Memory);
    };
    for at in 0..count {
        words.push_reserved(writes.at(at));
    }
    Ok(words)
}
