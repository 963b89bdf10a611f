//! Postings in a map.
ghost use Rattle.std.specs.Prelude.{◌≡◌, IfOk, ⊤};
ghost use Rattle.mail_query.specs.Answers.{Table};
ghost use Rattle.mail_query.specs.ListTable.{StandsFor, StandsForMore, table_of};

use crate::postings::Postings;
use mail_words::{Key, Memory, WordLists, laws};
use std::alloc::Global;
use std::collections::BTreeMap;

/// The messages of each word, in an ordered map.
#[derive(Drop)]
pub struct MapPostings {
    messages: BTreeMap<Key, Vec<u64>>,
}

impl MapPostings {
    /// The postings of the lists, the first of which is message 1's.
    pub fn new(alloc: Global, lists: &WordLists) -> Result<MapPostings, Memory>
        ensures stands { IfOk result (λ postings. StandsFor postings.messages (table_of lists.now)) }
        ensures no_other { IfOk result (λ postings. (table : Table) → StandsFor postings.messages table → table ≡ table_of lists.now) }
    {
        laws::keys_are_totally_ordered();
        let mut messages: BTreeMap<Key, Vec<u64>> = BTreeMap::new(alloc);
        for index in 0..lists.messages() {
            let message = index + 1;
            for key in lists.list(message) {
                match messages.get_mut(key) {
                    Some(list) => list.push(message)?,
                    None => {
                        let mut list = Vec::new(alloc);
                        list.push(message)?;
                        messages.insert(*key, list)?;
                    }
                }
            }
        }
        Ok(MapPostings { messages })
    }
}

impl Postings for MapPostings {
    type Stop = Memory;

    ghost fits = { λ postings table. StandsFor postings.messages table };

    ghost kept = { λ x y. StandsForMore x.messages y.messages };

    ghost stopped = { λ x key y stop. ⊤ };

    ghost kept_refl = { λ x table fits. fits };

    ghost kept_trans = { λ x y z p q table fits. q table (p table fits) };

    fn messages(&mut self, key: &Key, into: &mut Vec<u64>) -> Result<(), Memory> {
        if let Some(messages) = self.messages.get(key) {
            into.extend_from_slice(messages)?;
        }
        Ok(())
    }
}
