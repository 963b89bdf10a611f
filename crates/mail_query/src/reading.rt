//! A query that is being read.
ghost use Rattle.std.specs.Prelude.{◌≡◌, ◌<◌, IfOk, OnOk, IsTrue, length};
ghost use Rattle.mail_query.specs.Refusals.{refusal_at, refusal_at_end, Refuses};
ghost use Rattle.mail_query.specs.Reading.{Took, reading_of, opening, before_of, query_of};
ghost use Rattle.mail_query.specs.View.{token_of, seen_before};
ghost use Rattle.mail_query.specs.Tokens.{IsWhole};
ghost use Rattle.mail_query.specs.Tokens.Token.{Run, Bang, Bar, Open, Close};
ghost use Rattle.mail_words.specs.Key.{is_word};

use crate::error::QueryError;
use crate::group::{Before, Group};
use crate::query::Query;
use crate::token::Token;
use mail_words::{Memory, key_of};
use std::alloc::Global;
use std::mem;

/// The most letters and digits of a word.
const MAX_WORD_LEN: usize = 32;

/// The most parentheses that may be open at once.
const MAX_DEPTH: usize = 32;

/// What has been read of a query: the innermost group that is open, and the groups round it, the outermost first.
#[derive(Drop)]
pub struct Reading {
    group: Group,
    outer: Vec<Group>,
}

impl Reading {
    /// Nothing so far, with no group open but the whole text.
    pub fn new(alloc: Global) -> Reading
        ensures { reading_of result ≡ opening }
    {
        Reading {
            group: Group::new(alloc),
            outer: Vec::new(alloc),
        }
    }

    /// Reads the next token, or refuses it.
    pub fn take(&mut self, alloc: Global, token: Token<'_>) -> Result<(), QueryError>
        requires { IsWhole (token_of token) }
        ensures refused { let old = reading_of self.old in Refuses result (refusal_at (before_of old.group) (length old.outer) (token_of token.entry)) }
        ensures took { OnOk result (Took (reading_of self.old) (token_of token.entry) (reading_of self.new)) }
    {
        if let Some(refusal) = refusal_at(self.group.before(), self.outer.len(), token) {
            return Err(refusal);
        }
        let taken = match token {
            Token::Run(run) => self.word(alloc, run),
            Token::Bang => self.bang(),
            Token::Bar => self.bar(alloc),
            Token::Open => self.open(alloc),
            Token::Close => self.close(alloc),
            Token::Other => Ok(()),
        };
        Ok(taken?)
    }

    /// The query, where the text may end here.
    pub fn finish(self) -> Result<Query, QueryError>
        ensures refused { let last = reading_of self in Refuses result (refusal_at_end (before_of last.group) (length last.outer)) }
        ensures value { IfOk result (λ q. q ≡ query_of (reading_of self).group) }
    {
        if self.group.before() != Before::Item || !self.outer.is_empty() {
            return Err(QueryError::Bad);
        }
        Ok(self.group.into_query()?)
    }

    fn word(&mut self, alloc: Global, run: &[u8]) -> Result<(), Memory>
        requires { IsTrue (is_word run.now) }
        ensures { OnOk result (Took (reading_of self.old) (Run run.now) (reading_of self.new)) }
    {
        match key_of(run) {
            Some(key) => self.group.add(alloc, Query::Word { key }),
            None => unreachable!(),
        }
    }

    fn bang(&mut self) -> Result<(), Memory>
        ensures { OnOk result (Took (reading_of self.old) Bang (reading_of self.new)) }
    {
        self.group.negate();
        Ok(())
    }

    fn bar(&mut self, alloc: Global) -> Result<(), Memory>
        ensures { OnOk result (Took (reading_of self.old) Bar (reading_of self.new)) }
    {
        self.group.end_alternative(alloc)
    }

    fn open(&mut self, alloc: Global) -> Result<(), Memory>
        ensures { OnOk result (Took (reading_of self.old) Open (reading_of self.new)) }
    {
        let group = mem::replace(&mut self.group, Group::new(alloc));
        Ok(self.outer.push(group)?)
    }

    fn close(&mut self, alloc: Global) -> Result<(), Memory>
        requires { 0 < length (reading_of self.old).outer }
        ensures { OnOk result (Took (reading_of self.old) Close (reading_of self.new)) }
    {
        match self.outer.pop() {
            Some(outer) => {
                let inner = mem::replace(&mut self.group, outer);
                self.group.add(alloc, inner.into_query()?)
            }
            None => unreachable!(),
        }
    }
}

// What a token is refused for, given what stands before it and how many parentheses are open there.
fn refusal_at(before: Before, depth: usize, token: Token<'_>) -> Option<QueryError>
    ensures { result ≡ refusal_at (seen_before before) depth (token_of token.entry) }
{
    match token {
        Token::Run(run) if run.len() > MAX_WORD_LEN => Some(QueryError::LongWord),
        Token::Open if depth == MAX_DEPTH => Some(QueryError::Deep),
        Token::Bang if before == Before::Bang => Some(QueryError::Bad),
        Token::Bar if before != Before::Item => Some(QueryError::Bad),
        Token::Close if before != Before::Item || depth == 0 => Some(QueryError::Bad),
        Token::Other => Some(QueryError::Bad),
        _ => None,
    }
}
