//! The keys of the words of a query.
ghost use Rattle.std.specs.Prelude.{◌≡◌, ◌++◌, OnOk, IfOk};
ghost use Rattle.std.specs.List.{flat_map};
ghost use Rattle.mail_query.specs.Members.{members_of};
ghost use Rattle.mail_query.specs.Truth.{keys_in};

use mail_query::{Queries, Query};
use mail_words::Key;
use std::alloc::{AllocError, Global};

/// The keys of the words of a query, in order.
pub(crate) fn keys_of(alloc: Global, query: &Query) -> Result<Vec<Key>, AllocError>
    ensures { IfOk result (λ keys. keys.items ≡ keys_in query.now) }
{
    let mut keys = Vec::new(alloc);
    add_keys(query, &mut keys)?;
    Ok(keys)
}

// Adds the keys of a query.
#[cycle(keys)]
fn add_keys(query: &Query, keys: &mut Vec<Key>) -> Result<(), AllocError>
    ensures { OnOk result (keys.new.items ≡ keys.old.items ++ keys_in query.now) }
{
    match query {
        Query::Word { key } => Ok(keys.push(*key)?),
        Query::Not { of } => add_keys(of.get(), keys),
        Query::All { of } => add_keys_of(of, keys),
        Query::Any { of } => add_keys_of(of, keys),
    }
}

#[cycle(keys)]
fn add_keys_of(queries: &Queries, keys: &mut Vec<Key>) -> Result<(), AllocError>
    ensures { OnOk result (keys.new.items ≡ keys.old.items ++ flat_map keys_in (members_of queries.now)) }
{
    for index in 0..queries.len() {
        add_keys(queries.at(index), keys)?;
    }
    Ok(())
}
