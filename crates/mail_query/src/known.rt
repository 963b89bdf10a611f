//! The messages of the words of a query, each word asked for once.
ghost use Rattle.std.specs.Prelude.{◌≡◌, ◌⊎◌, ◌∷◌, [], OnOk, IfOk, IfErr, IsSome};
ghost use Rattle.std.specs.BTreeMap.{get};
ghost use Rattle.mail_words.specs.Key.{KeyNumbers, key_cmp};
ghost use Rattle.mail_query.specs.Answers.{Table, messages_with};
ghost use Rattle.mail_query.specs.Bits.{AreWords, HasBits, AreSized, AreRight, Knows, has_word};
ghost use Rattle.mail_query.specs.Evaluation.{EvalStopped};

use crate::bits::Bits;
use crate::evaluation::EvalStop;
use crate::found::Found;
use crate::postings::Postings;
use mail_words::{Key, Memory, laws};
use std::alloc::Global;
use std::collections::BTreeMap;

/// What was found for words.
#[derive(Drop)]
pub(crate) struct Known {
    found: BTreeMap<Key, Found>,
}

impl Known {
    /// Asks for the messages of the keys, up to `count`.
    pub(crate) fn of_keys<P: Postings>(
        alloc: Global,
        keys: &[Key],
        count: u64,
        from: &mut P,
    ) -> Result<Known, EvalStop<P::Stop>>
        ensures size { IfOk result (λ known. AreSized count known.found) }
        ensures answer { IfOk result (λ known. (table : Table) → P.fits from.new table
            → P.fits from.old table × Knows count known.found keys.now table) }
        ensures kept { OnOk result (P.kept from.old from.new) }
        ensures stopped { IfErr result (EvalStopped P.kept P.stopped keys.now from.old from.new) }
    {
        let mut known = Known {
            found: BTreeMap::new(alloc),
        };
        for key in keys {
            known.ask(alloc, key, count, from)?;
        }
        Ok(known)
    }

    /// The messages of a key, up to `count`.
    pub(crate) fn messages(&self, alloc: Global, key: &Key, count: u64) -> Result<Bits, Memory>
        requires { AreSized count self.now.found }
        ensures size { IfOk result (λ set. AreWords count set.words.items) }
        ensures messages { IfOk result (λ set. (table : Table) → Knows count self.now.found (key.now ∷ []) table
            → HasBits count set.words.items (has_word table key.now)) }
    {
        match self.found.get(key) {
            Some(found) => found.bits(alloc, count),
            None => Bits::empty(alloc, count),
        }
    }

    // Asks for the messages of a key, unless they are known.
    fn ask<P: Postings>(
        &mut self,
        alloc: Global,
        key: &Key,
        count: u64,
        from: &mut P,
    ) -> Result<(), EvalStop<P::Stop>>
        ensures size { OnOk result (AreSized count self.old.found → AreSized count self.new.found) }
        ensures right { OnOk result ((table : Table) → P.fits from.new table
            → P.fits from.old table × (AreRight count self.old.found table → AreRight count self.new.found table)) }
        ensures more { OnOk result ((other : KeyNumbers) → IsSome (get key_cmp self.old.found other) ⊎ (other ≡ key.now)
            → IsSome (get key_cmp self.new.found other)) }
        ensures kept { OnOk result (P.kept from.old from.new) }
        ensures stopped { IfErr result (EvalStopped P.kept P.stopped (key.now ∷ []) from.old from.new) }
    {
        laws::keys_are_totally_ordered();
        if self.found.contains_key(key) {
            return Ok(());
        }
        let mut messages = Vec::new(alloc);
        match from.messages(key, &mut messages) {
            Ok(()) => Ok(self.put(alloc, key, messages, count)?),
            Err(stop) => Err(EvalStop::Postings { stop }),
        }
    }

    // Keeps the messages of a key.
    fn put(
        &mut self,
        alloc: Global,
        key: &Key,
        messages: Vec<u64>,
        count: u64,
    ) -> Result<(), Memory>
        ensures size { OnOk result (AreSized count self.old.found → AreSized count self.new.found) }
        ensures right { OnOk result ((table : Table) → messages.items ≡ messages_with table key.now
            → AreRight count self.old.found table → AreRight count self.new.found table) }
        ensures more { OnOk result ((other : KeyNumbers) → IsSome (get key_cmp self.old.found other) ⊎ (other ≡ key.now)
            → IsSome (get key_cmp self.new.found other)) }
    {
        laws::keys_are_totally_ordered();
        let found = Found::of(alloc, messages, count)?;
        self.found.insert(*key, found)?;
        Ok(())
    }
}
