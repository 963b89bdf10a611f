//! Lists of messages that were read.
ghost use Rattle.std.specs.Prelude.{◌≡◌, ◌⊎◌, [], IfErr, IsErr, IsSome, OnErr, OnOk, ℕ, Bool};
ghost use Rattle.std.specs.BTreeMap.{get};
ghost use Rattle.mail_words.specs.Key.{KeyNumbers, key_cmp};
ghost use Rattle.mail_query.specs.Answers.{Table, messages_with};
ghost use Rattle.mail_answers.specs.Lists.{HasLists, HasNone, KnowsKey, StopsAt};

use mail_query::Postings;
use mail_words::{Key, laws};
use std::alloc::{AllocError, Global};
use std::collections::BTreeMap;

/// The messages of some keys, as an attempt read them.
#[derive(Drop)]
pub(crate) struct ReadLists {
    lists: BTreeMap<Key, Vec<u64>>,
}

/// Why the messages of a key aren't told.
#[derive(Clone, Copy, Drop)]
pub(crate) enum ListsStop {
    /// Want of memory.
    Memory,
    /// They weren't read.
    NotRead,
}

impl ReadLists {
    /// Nothing was read.
    pub(crate) fn new(alloc: Global) -> ReadLists
        ensures { HasNone result.lists }
    {
        ReadLists {
            lists: BTreeMap::new(alloc),
        }
    }

    /// Whether the messages of the key were read.
    pub(crate) fn has(&self, key: &Key) -> bool
        ensures { KnowsKey self.now.lists key.now result }
    {
        laws::keys_are_totally_ordered();
        self.lists.contains_key(key)
    }

    /// Keeps the messages of a key.
    pub(crate) fn put(&mut self, key: &Key, messages: Vec<u64>) -> Result<(), AllocError>
        ensures right { OnOk result ((table : Table) → messages.items ≡ messages_with table key.now
            → HasLists self.old.lists table → HasLists self.new.lists table) }
        ensures more { OnOk result ((other : KeyNumbers) → IsSome (get key_cmp self.old.lists other) ⊎ (other ≡ key.now)
            → IsSome (get key_cmp self.new.lists other)) }
    {
        laws::keys_are_totally_ordered();
        match self.lists.insert(*key, messages) {
            Ok(_) => Ok(()),
            Err(_) => Err(AllocError),
        }
    }
}

impl Postings for ReadLists {
    ghost use Rattle.std.specs.Prelude.{◌≡◌, refl};
    ghost use Rattle.std.proofs.Common.{◌∙◌};
    ghost use Rattle.mail_answers.specs.Lists.{HasLists, StopsAt};

    type Stop = ListsStop;

    ghost fits = { λ read table. HasLists read.lists table };

    ghost kept = { λ x y. y ≡ x };

    ghost stopped = { λ x key y stop. StopsAt x.lists key stop };

    ghost kept_refl = { λ x. refl };

    ghost kept_trans = { λ x y z p q. q ∙ p };

    fn messages(&mut self, key: &Key, into: &mut Vec<u64>) -> Result<(), ListsStop> {
        let Some(messages) = self.lists.get(key) else {
            return Err(ListsStop::NotRead);
        };
        match into.extend_from_slice(messages) {
            Ok(()) => Ok(()),
            Err(AllocError) => Err(ListsStop::Memory),
        }
    }
}
