//! The members of an open group.
ghost use Rattle.std.specs.Prelude.{◌≡◌, OnOk, IfOk};
ghost use Rattle.mail_query.specs.Members.{members_of, all_of, any_of};
ghost use Rattle.mail_query.specs.Reading.{fresh, with_item, with_bang, with_bar, query_of, group_of, before_of};
ghost use Rattle.mail_query.specs.View.{seen_before};

use crate::query::{Queries, Query};
use mail_words::Memory;
use sqlite_items::Boxed;
use std::alloc::Global;
use std::mem;

/// What stands before a token: nothing, `|` or `(`, after which a query begins; `!`; or a word or `)`.
#[derive(Clone, Copy, PartialEq, Eq)]
pub enum Before {
    Start,
    Bang,
    Item,
}

/// What stands in a pair of parentheses so far: the alternatives that are done, the items of the next one, and
/// whether a `!` waits for its item.
#[derive(Drop)]
pub struct Group {
    alternatives: Queries,
    items: Queries,
    negated: bool,
}

impl Group {
    /// Nothing so far.
    pub fn new(alloc: Global) -> Group
        ensures { group_of result ≡ fresh }
    {
        Group {
            alternatives: Queries::new(alloc),
            items: Queries::new(alloc),
            negated: false,
        }
    }

    /// What stands before the next token.
    pub fn before(&self) -> Before
        ensures { seen_before result ≡ before_of (group_of self.now) }
    {
        if self.negated {
            Before::Bang
        } else if self.items.len() == 0 {
            Before::Start
        } else {
            Before::Item
        }
    }

    /// Adds an item, behind its `!` if one waits.
    pub fn add(&mut self, alloc: Global, q: Query) -> Result<(), Memory>
        ensures { OnOk result (group_of self.new ≡ with_item q (group_of self.old)) }
    {
        let negated = mem::replace(&mut self.negated, false);
        let item = if negated { negation(alloc, q)? } else { q };
        match self.items.push(item) {
            Ok(()) => Ok(()),
            Err(_) => Err(Memory),
        }
    }

    /// A `!`, which waits for the next item.
    pub fn negate(&mut self)
        ensures { group_of self.new ≡ with_bang (group_of self.old) }
    {
        self.negated = true;
    }

    /// A `|`, which ends an alternative.
    pub fn end_alternative(&mut self, alloc: Global) -> Result<(), Memory>
        ensures { OnOk result (group_of self.new ≡ with_bar (group_of self.old)) }
    {
        let items = mem::replace(&mut self.items, Queries::new(alloc));
        self.negated = false;
        match self.alternatives.push(all_of(items)) {
            Ok(()) => Ok(()),
            Err(_) => Err(Memory),
        }
    }

    /// The query of the whole group.
    pub fn into_query(self) -> Result<Query, Memory>
        ensures { IfOk result (λ q. q ≡ query_of (group_of self)) }
    {
        let Group {
            mut alternatives,
            items,
            ..
        } = self;
        match alternatives.push(all_of(items)) {
            Ok(()) => Ok(any_of(alternatives)),
            Err(_) => Err(Memory),
        }
    }
}

fn negation(alloc: Global, q: Query) -> Result<Query, Memory>
    ensures { IfOk result (λ negated. negated ≡ Query.Not q) }
{
    let of = Boxed::new(alloc, q)?;
    Ok(Query::Not { of })
}

// All of the queries. One by itself is that query.
fn all_of(queries: Queries) -> Query
    ensures { result ≡ all_of (members_of queries) }
{
    match queries.into_only() {
        Ok(only) => only,
        Err(queries) => Query::All { of: queries },
    }
}

// Any of the queries. One by itself is that query.
fn any_of(queries: Queries) -> Query
    ensures { result ≡ any_of (members_of queries) }
{
    match queries.into_only() {
        Ok(only) => only,
        Err(queries) => Query::Any { of: queries },
    }
}
