//! The text of a query.
ghost use Rattle.std.specs.Prelude.{◌≡◌, ◌++◌, ◌∷◌, [], map, IsTrue, IfOk, OnOk};
ghost use Rattle.mail_words.specs.Key.{word_of, is_key};
ghost use Rattle.std.specs.List.{list_all};
ghost use Rattle.mail_query.specs.declared.query.Query.{out-Query};
ghost use Rattle.mail_query.specs.Grammar.{ReadsAs};
ghost use Rattle.mail_query.specs.InForm.{in_form, has_words};
ghost use Rattle.mail_query.specs.View.{context_of};
ghost use Rattle.mail_query.specs.Printed.{printed, printed_at, wraps, joined};

use crate::query::Query;
use mail_words::{Key, Memory, bytes_of};
use std::alloc::Global;

/// Where a query stands in a text: alone, in an `Any`, in an `All`, or directly behind a `!`.
#[derive(Clone, Copy, PartialEq, Eq)]
pub enum Context {
    Alone,
    InAny,
    InAll,
    UnderNot,
}

/// The text of a query: one space between two items, no other spaces, and no more parentheses than it needs.
pub fn print(alloc: Global, q: &Query) -> Result<Vec<u8>, Memory>
    requires { IsTrue (in_form q.now) }
    ensures printed { IfOk result (λ text. text.items ≡ printed q.now) }
    ensures reads { IfOk result (λ text. ReadsAs text.items q.now) }
{
    let mut text = Vec::new(alloc);
    print_at(&mut text, q, Context::Alone)?;
    Ok(text)
}

// Prints a query in its context, in parentheses where it needs them.
#[cycle(print)]
fn print_at(text: &mut Vec<u8>, q: &Query, context: Context) -> Result<(), Memory>
    ensures printed { OnOk result (text.new.items ≡ text.old.items ++ printed_at q.now (context_of context)) }
    ensures words { OnOk result (IsTrue (has_words q.now)) }
{
    if wraps(q, context) {
        put(text, b'(')?;
        print_bare(text, q)?;
        put(text, b')')
    } else {
        print_bare(text, q)
    }
}

// Prints a query with no parentheses round it.
#[cycle(print)]
fn print_bare(text: &mut Vec<u8>, q: &Query) -> Result<(), Memory>
    ensures printed { OnOk result (text.new.items ≡ text.old.items ++ printed q.now) }
    ensures words { OnOk result (IsTrue (has_words q.now)) }
{
    match q {
        Query::Word { key } => print_word(text, key),
        Query::Not { of } => {
            put(text, b'!')?;
            print_at(text, of.get(), Context::UnderNot)
        }
        Query::All { of } => print_members(text, of.as_slice(), b' ', Context::InAll),
        Query::Any { of } => print_members(text, of.as_slice(), b'|', Context::InAny),
    }
}

// Prints the members with a byte between each two.
#[cycle(print)]
fn print_members(
    text: &mut Vec<u8>,
    members: &[Query],
    between: u8,
    context: Context,
) -> Result<(), Memory>
    ensures printed { OnOk result (text.new.items ≡ text.old.items ++ joined between (map (λ q. printed_at q (context_of context)) members.now)) }
    ensures words { OnOk result (IsTrue (list_all has_words members.now)) }
{
    for (at, q) in members.iter().enumerate() {
        if at > 0 {
            put(text, between)?;
        }
        print_at(text, q, context)?;
    }
    Ok(())
}

// Whether parentheses stand round a query in its context.
fn wraps(q: &Query, context: Context) -> bool
    ensures { result ≡ wraps (out-Query q.now) (context_of context) }
{
    match q {
        Query::Word { .. } => false,
        Query::Not { .. } => context == Context::UnderNot,
        Query::All { .. } => context == Context::InAll || context == Context::UnderNot,
        Query::Any { .. } => context != Context::Alone,
    }
}

// Prints the word of a key. That it is one is known where a key is opened.
fn print_word(text: &mut Vec<u8>, key: &Key) -> Result<(), Memory>
    ensures printed { OnOk result (text.new.items ≡ text.old.items ++ word_of key.now) }
    ensures word { IsTrue (is_key key.now) }
{
    let _ = &key.k0;
    let word = bytes_of(key);
    match text.extend_from_slice(&word.bytes[..word.len]) {
        Ok(()) => Ok(()),
        Err(_) => Err(Memory),
    }
}

fn put(text: &mut Vec<u8>, byte: u8) -> Result<(), Memory>
    ensures { OnOk result (text.new.items ≡ text.old.items ++ byte ∷ []) }
{
    Ok(text.push(byte)?)
}
