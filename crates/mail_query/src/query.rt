//! Queries.
ghost use Rattle.std.specs.Prelude.{◌≡◌, ◌++◌, ◌∷◌, [], ◌<◌, length, OnOk, OnErr, IfOk, IfErr, slice_get, Some};
ghost use Rattle.mail_query.specs.Members.{members_of};

use mail_words::{Key, key_of};
use sqlite_items::{Boxed, Items};
use std::alloc::Global;

/// A query, which holds of a message or doesn't.
#[cycle(query)]
#[derive(Debug, Drop)]
pub enum Query {
    /// The word is in the message.
    Word { key: Key },
    /// The query doesn't hold.
    Not { of: Boxed<Query> },
    /// Each of the queries holds.
    All { of: Queries },
    /// At least one of the queries holds.
    Any { of: Queries },
}

/// The queries that an `All` or an `Any` is made of, in order.
#[cycle(query)]
#[derive(Debug, Drop)]
pub struct Queries {
    members: Items<Query>,
}

impl Queries {
    /// No queries.
    pub fn new(alloc: Global) -> Queries
        ensures { members_of result ≡ [] }
    {
        Queries {
            members: Items::new(alloc),
        }
    }

    /// How many queries there are.
    pub fn len(&self) -> u64
        ensures { result ≡ length (members_of self.now) }
    {
        self.members.len() as u64
    }

    /// The query at an index, counted from 0.
    pub fn at(&self, place: u64) -> &Query
        requires { place < length (members_of self.now) }
        ensures { slice_get (members_of self.now) place ≡ Some result.now }
    {
        &self.members.as_slice()[place as usize]
    }

    /// Puts a query last. For want of memory it hands the query back, and nothing changes.
    pub fn push(&mut self, q: Query) -> Result<(), Query>
        ensures ok { OnOk result (members_of self.new ≡ members_of self.old ++ q ∷ []) }
        ensures err { OnErr result (members_of self.new ≡ members_of self.old) }
        ensures value_returned { IfErr result (λ back. back ≡ q) }
    {
        // A refused push loses what it was given, so the room is made with a query that costs nothing.
        let index = self.members.len();
        match self.members.push(stand_in()) {
            Ok(()) => {
                self.members.set(index, q);
                Ok(())
            }
            Err(_) => Err(q),
        }
    }

    pub(crate) fn as_slice(&self) -> &[Query]
        ensures { result.now ≡ members_of self.now }
    {
        self.members.as_slice()
    }

    /// The only query. Where there are none or several, they come back.
    pub(crate) fn into_only(self) -> Result<Query, Queries>
        ensures only { IfOk result (λ q. members_of self ≡ q ∷ []) }
        ensures several { IfErr result (λ back. (back ≡ self) × ¬ (length (members_of self) ≡ 1)) }
    {
        if self.len() != 1 {
            return Err(self);
        }
        let mut members = self.members;
        match members.pop() {
            Some(only) => Ok(only),
            None => unreachable!(),
        }
    }
}

// A query that takes no memory.
fn stand_in() -> Query {
    match key_of(b"a") {
        Some(key) => Query::Word { key },
        None => unreachable!(),
    }
}
