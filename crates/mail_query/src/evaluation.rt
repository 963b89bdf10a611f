//! Which messages a query holds of.
ghost use Rattle.std.specs.Prelude.{◌≡◌, ◌++◌, OnOk, IfOk, IfErr};
ghost use Rattle.std.specs.List.{list_all, list_any, flat_map};
ghost use Rattle.mail_query.specs.Members.{members_of};
ghost use Rattle.mail_query.specs.Truth.{satisfies, keys_in};
ghost use Rattle.mail_query.specs.Answers.{Table, keys_with, numbers_where};
ghost use Rattle.mail_query.specs.Bits.{AreWords, HasBits, AreSized, Knows};
ghost use Rattle.mail_query.specs.Evaluation.{Answered, EvalStopped};

use crate::bits::Bits;
use crate::known::Known;
use crate::postings::Postings;
use crate::query::{Queries, Query};
use mail_words::{Key, Memory};
use std::alloc::Global;
use std::fmt::Display;
use thiserror::Error;

/// Why an evaluation gave no answer.
#[derive(Clone, Copy, Debug, PartialEq, Eq, Drop, Error)]
#[error_bound(T: Display)]
pub enum EvalStop<T> {
    /// Want of memory.
    #[error("no memory")]
    Memory,
    /// The postings stopped.
    #[error("{stop}")]
    Postings { stop: T },
}

impl<T> From<Memory> for EvalStop<T> {
    ghost use Rattle.std.specs.Prelude.{◌≡◌};
    ghost use Rattle.mail_query.specs.declared.evaluation.EvalStop.TheVariants.{Memory};

    ghost from_gives = { λ _ stop. stop ≡ Memory };

    fn from(_: Memory) -> Self {
        EvalStop::Memory
    }
}

/// The numbers from 1 to `count` of the messages for which the query holds, rising. Each word is asked for once.
pub fn evaluate<P: Postings>(
    alloc: Global,
    q: &Query,
    count: u64,
    from: &mut P,
) -> Result<Vec<u64>, EvalStop<P::Stop>>
    ensures answer { IfOk result (λ hits. Answered P.fits (λ table. numbers_where q.now table count) from.old from.new hits.items) }
    ensures kept { OnOk result (P.kept from.old from.new) }
    ensures stopped { IfErr result (EvalStopped P.kept P.stopped (keys_in q.now) from.old from.new) }
{
    let mut keys = Vec::new(alloc);
    add_keys(q, &mut keys)?;
    let known = Known::of_keys(alloc, &keys, count, from)?;
    let set = hits(alloc, q, &known, count)?;
    let numbers = set.numbers(alloc, count)?;
    Ok(numbers)
}

// Adds the keys of the words of a query, in order.
#[cycle(keys)]
fn add_keys(q: &Query, keys: &mut Vec<Key>) -> Result<(), Memory>
    ensures { OnOk result (keys.new.items ≡ keys.old.items ++ keys_in q.now) }
{
    match q {
        Query::Word { key } => Ok(keys.push(*key)?),
        Query::Not { of } => add_keys(of.get(), keys),
        Query::All { of } => add_keys_of(of, keys),
        Query::Any { of } => add_keys_of(of, keys),
    }
}

#[cycle(keys)]
fn add_keys_of(queries: &Queries, keys: &mut Vec<Key>) -> Result<(), Memory>
    ensures { OnOk result (keys.new.items ≡ keys.old.items ++ flat_map keys_in (members_of queries.now)) }
{
    for index in 0..queries.len() {
        add_keys(queries.at(index), keys)?;
    }
    Ok(())
}

// The messages of which the query holds, by those of its words.
#[cycle(hits)]
fn hits(alloc: Global, q: &Query, known: &Known, count: u64) -> Result<Bits, Memory>
    requires { AreSized count known.now.found }
    ensures size { IfOk result (λ set. AreWords count set.words.items) }
    ensures hits { IfOk result (λ set. (table : Table) → Knows count known.now.found (keys_in q.now) table
        → HasBits count set.words.items (λ number. satisfies q.now (keys_with table number))) }
{
    match q {
        Query::Word { key } => known.messages(alloc, key, count),
        Query::Not { of } => {
            let mut set = hits(alloc, of.get(), known, count)?;
            set.complement();
            Ok(set)
        }
        Query::All { of } => hits_of_all(alloc, of, known, count),
        Query::Any { of } => hits_of_any(alloc, of, known, count),
    }
}

#[cycle(hits)]
fn hits_of_all(alloc: Global, queries: &Queries, known: &Known, count: u64) -> Result<Bits, Memory>
    requires { AreSized count known.now.found }
    ensures size { IfOk result (λ set. AreWords count set.words.items) }
    ensures hits { IfOk result (λ set. (table : Table) → Knows count known.now.found (flat_map keys_in (members_of queries.now)) table
        → HasBits count set.words.items (λ number. list_all (λ q. satisfies q (keys_with table number)) (members_of queries.now))) }
{
    let mut set = Bits::empty(alloc, count)?;
    set.complement();
    for index in 0..queries.len() {
        let more = hits(alloc, queries.at(index), known, count)?;
        set.intersect(&more);
    }
    Ok(set)
}

#[cycle(hits)]
fn hits_of_any(alloc: Global, queries: &Queries, known: &Known, count: u64) -> Result<Bits, Memory>
    requires { AreSized count known.now.found }
    ensures size { IfOk result (λ set. AreWords count set.words.items) }
    ensures hits { IfOk result (λ set. (table : Table) → Knows count known.now.found (flat_map keys_in (members_of queries.now)) table
        → HasBits count set.words.items (λ number. list_any (λ q. satisfies q (keys_with table number)) (members_of queries.now))) }
{
    let mut set = Bits::empty(alloc, count)?;
    for index in 0..queries.len() {
        let more = hits(alloc, queries.at(index), known, count)?;
        set.unite(&more);
    }
    Ok(set)
}
