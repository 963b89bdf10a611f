//! Whether a query holds of keys.
ghost use Rattle.std.specs.Prelude.{◌≡◌};
ghost use Rattle.std.specs.List.{list_all, list_any};
ghost use Rattle.std.specs.List.Sorted.{IsStrictlySortedBy};
ghost use Rattle.mail_words.specs.Key.{key_cmp};
ghost use Rattle.mail_query.specs.Members.{members_of};
ghost use Rattle.mail_query.specs.Truth.{satisfies, has_key};

use crate::query::{Queries, Query};
use mail_words::{Key, laws};

/// Whether the query holds of the words, which rise.
#[cycle(holds)]
pub fn holds(q: &Query, words: &[Key]) -> bool
    requires { IsStrictlySortedBy key_cmp words.now }
    ensures { result ≡ satisfies q.now words.now }
{
    match q {
        Query::Word { key } => has_key(words, key),
        Query::Not { of } => !holds(of.get(), words),
        Query::All { of } => all_hold(of, words),
        Query::Any { of } => any_holds(of, words),
    }
}

// Whether the key is among the keys, which rise.
fn has_key(keys: &[Key], key: &Key) -> bool
    requires { IsStrictlySortedBy key_cmp keys.now }
    ensures { result ≡ has_key key.now keys.now }
{
    laws::keys_are_totally_ordered();
    keys.binary_search(key).is_ok()
}

#[cycle(holds)]
fn all_hold(queries: &Queries, words: &[Key]) -> bool
    requires { IsStrictlySortedBy key_cmp words.now }
    ensures { result ≡ list_all (λ q. satisfies q words.now) (members_of queries.now) }
{
    for index in 0..queries.len() {
        if !holds(queries.at(index), words) {
            return false;
        }
    }
    true
}

#[cycle(holds)]
fn any_holds(queries: &Queries, words: &[Key]) -> bool
    requires { IsStrictlySortedBy key_cmp words.now }
    ensures { result ≡ list_any (λ q. satisfies q words.now) (members_of queries.now) }
{
    for index in 0..queries.len() {
        if holds(queries.at(index), words) {
            return true;
        }
    }
    false
}
