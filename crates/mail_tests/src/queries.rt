//! Queries: texts that are read, refused and printed, and answers over postings that are a list of pairs. The expected
//! texts and answers were worked out by hand.
ghost use Rattle.std.specs.Prelude.{◌≡◌, ◌++◌, ℕ, List, map, filter, OnOk, OnErr, IfErr};
ghost use Rattle.mail_words.specs.Key.{KeyNumbers, same_key};
ghost use Rattle.mail_query.specs.Answers.{Table, messages_with};

use mail_query::{
    EvalStop, Postings, Queries, Query, QueryError, answer_line, evaluate, holds, parse, print,
};
use mail_words::laws::word_list_is_the_set_of_keys;
use mail_words::{Key, Memory, bytes_of, words_of};
use std::alloc::{AllocError, AllocFailed, Global};
use std::process::Abort;
use std::test::Fail;

/// Texts, each with the form that it is printed in behind `:`.
const PRINTED: &str = "\
a:a
A:a
  Ring  :ring
a1 2B:a1 2b
a b:a b
a   b:a b
a|b:a|b
 a | b :a|b
a b|c d:a b|c d
(a):a
((a)):a
(a)(b):a b
a(b)c:a b c
a(b|c)d:a (b|c) d
!a:!a
! a:!a
!(a):!a
!(!a):!(!a)
!(a b):!(a b)
!(a|b):!(a|b)
!((a b)):!(a b)
!a b:!a b
a!b:a !b
(!a)b:!a b
(!a)|b:!a|b
(a b)c:(a b) c
(a b)|c:a b|c
(a|b)|c:(a|b)|c
a|(b|c):a|(b|c)
a|b|c:a|b|c
( A  |b) !c:(a|b) !c
 ( ( a ) | ( b ) ) :a|b
length (paper|octet):length (paper|octet)
aaaaaaaaaaaaaaaaaaaaaaaaaaaaaaaa:aaaaaaaaaaaaaaaaaaaaaaaaaaaaaaaa";

/// The query of the text is printed so.
fn prints(rt: &impl Abort, alloc: Global, text: &[u8], expected: &str) -> Result<(), Fail> {
    let query = parse(alloc, text)?;
    let printed = print(alloc, &query)?;
    assert_eq!(rt; printed.as_slice(), expected.as_bytes(), "{expected}");
    Ok(())
}

#[test]
fn texts_and_their_printed_form(rt: HostRuntime) -> Result<(), Fail> {
    for case in PRINTED.lines() {
        let Some((text, expected)) = case.split_once(':') else {
            return Err(Fail::new("a case without its printed form"));
        };
        prints(&rt, rt.alloc(), text.as_bytes(), expected)?;
        prints(&rt, rt.alloc(), expected.as_bytes(), expected)?;
    }
    Ok(())
}

/// Texts that are no queries, with `:` between two.
const BAD: &str = "\
    : :!:!!a:! !a:a!:a!|b:\
    ):a):(a:():( ):(!):(a|):|a:a|:a |:a||b:\
    -:a-b:a_b:a\tb:a\nb:a\u{a0}b:caf\u{e9}:\
    )aaaaaaaaaaaaaaaaaaaaaaaaaaaaaaaaa";

/// Texts with a word that is too long.
const LONG_WORDS: &str =
    "aaaaaaaaaaaaaaaaaaaaaaaaaaaaaaaaa:aaaaaaaaaaaaaaaaaaaaaaaaaaaaaaaaa\u{e9}";

fn is_refused(rt: &impl Abort, alloc: Global, text: &[u8], expected: QueryError) {
    assert_eq!(rt; parse(alloc, text).err(), Some(expected));
}

fn are_refused(rt: &impl Abort, alloc: Global, texts: &str, expected: QueryError) {
    for text in texts.split(':') {
        is_refused(rt, alloc, text.as_bytes(), expected);
    }
}

#[test]
fn texts_that_are_refused(rt: HostRuntime) {
    are_refused(&rt, rt.alloc(), BAD, QueryError::Bad);
    are_refused(&rt, rt.alloc(), LONG_WORDS, QueryError::LongWord);
}

/// A text of so many bytes `(`, then `a` and so many bytes `)`.
fn nested(alloc: Global, depth: u8) -> Result<Vec<u8>, AllocError> {
    let depth = depth as usize;
    let mut text = b"(".repeat(alloc, depth)?;
    text.push(b'a')?;
    text.extend_from_slice(&b")".repeat(alloc, depth)?)?;
    Ok(text)
}

fn is_read(rt: &impl Abort, alloc: Global, text: &[u8]) {
    assert!(rt; parse(alloc, text).is_ok());
}

#[test]
fn limits(rt: HostRuntime) -> Result<(), AllocError> {
    let alloc = rt.alloc();
    is_read(&rt, alloc, &nested(alloc, 32)?);
    is_refused(&rt, alloc, &nested(alloc, 33)?, QueryError::Deep);
    is_read(&rt, alloc, &b"(a)".repeat(alloc, 40)?);

    let mut long = b"a".to_vec(alloc)?;
    long.resize(4096, b' ')?;
    is_read(&rt, alloc, &long);
    long.push(b')')?;
    is_refused(&rt, alloc, &long, QueryError::Long);
    Ok(())
}

fn is_word(rt: &impl Abort, q: &Query, expected: &[u8]) {
    let word = match q {
        Query::Word { key } => Some(word_of(key)),
        _ => None,
    };
    assert_eq!(rt; word, Some(expected.first().copied()));
}

/// The first byte of a key's word.
fn word_of(key: &Key) -> Option<u8> {
    bytes_of(key).bytes.first().copied()
}

#[test]
fn members_in_their_order(rt: HostRuntime) -> Result<(), QueryError> {
    let q = parse(rt.alloc(), b"( A  |b) !c")?;
    let Query::All { of } = &q else {
        return Err(QueryError::Bad);
    };
    assert_eq!(rt; of.len(), 2);
    let Query::Any { of: either } = of.at(0) else {
        return Err(QueryError::Bad);
    };
    assert_eq!(rt; either.len(), 2);
    is_word(&rt, either.at(0), b"a");
    is_word(&rt, either.at(1), b"b");
    let Query::Not { of: negated } = of.at(1) else {
        return Err(QueryError::Bad);
    };
    is_word(&rt, negated.get(), b"c");
    Ok(())
}

#[test]
fn queries_grow_at_their_end(rt: HostRuntime) -> Result<(), QueryError> {
    let mut queries = Queries::new(rt.alloc());
    assert_eq!(rt; queries.len(), 0);
    assert!(rt; queries.push(parse(rt.alloc(), b"a")?).is_ok());
    assert!(rt; queries.push(parse(rt.alloc(), b"b")?).is_ok());
    assert_eq!(rt; queries.len(), 2);
    is_word(&rt, queries.at(0), b"a");
    is_word(&rt, queries.at(1), b"b");
    Ok(())
}

/// A word of a message.
#[derive(Clone, Copy)]
struct Posting {
    key: Key,
    message: u64,
}

/// Why there is no list.
#[derive(Clone, Copy, Debug, PartialEq, Eq, Drop)]
enum PairsStop {
    Memory,
    OutOfLists,
}

impl<T: Drop> From<AllocFailed<T>> for PairsStop {
    fn from(_: AllocFailed<T>) -> Self {
        PairsStop::Memory
    }
}

/// The words of each message, in the order of the messages, which give so many lists and then stop.
#[derive(Drop)]
struct Pairs {
    pairs: Vec<Posting>,
    lists_left: u64,
}

impl Postings for Pairs {
    type Stop = PairsStop;

    ghost fits = { λ postings table. (key : KeyNumbers)
        → messages_with table key ≡ map (λ pair. pair.message) (filter (λ pair. same_key pair.key key) postings.pairs.items) };

    ghost kept = { λ _ _. Unit {0} };

    ghost stopped = { λ _ _ _ _. Unit {0} };

    fn messages(&mut self, key: &Key, into: &mut Vec<u64>) -> Result<(), PairsStop> {
        if self.lists_left == 0 {
            return Err(PairsStop::OutOfLists);
        }
        self.lists_left -= 1;
        for pair in &self.pairs {
            if pair.key == *key {
                into.push(pair.message)?;
            }
        }
        Ok(())
    }

    ghost kept_refl = { λ _. tt };

    ghost kept_trans = { λ _ _ _ _ _. tt };
}

const THREE_MESSAGES: [&[u8]; 3] = [
    b"Subject: Ring test\n\nHello ring\n\n",
    b"Subject: other\n\nhello bloom\n\n",
    b"RING bloom bloom\n\n",
];

/// The words of the three messages, which give so many lists.
fn pairs_of(alloc: Global, lists_left: u64) -> Result<Pairs, Memory> {
    let mut pairs = Vec::new(alloc);
    for (message, text) in (1..).zip(THREE_MESSAGES) {
        for key in words_of(alloc, text)?.iter() {
            pairs.push(Posting { key: *key, message })?;
        }
    }
    Ok(Pairs { pairs, lists_left })
}

/// The query has this answer line over the three messages.
fn answers(rt: &impl Abort, alloc: Global, query: &[u8], expected: &[u8]) -> Result<(), Fail> {
    let query = parse(alloc, query)?;
    let mut pairs = pairs_of(alloc, 64)?;
    let hits = evaluate(alloc, &query, 3, &mut pairs)?;
    let line = answer_line(alloc, &hits)?;
    assert_eq!(rt; line.as_slice(), expected);
    Ok(())
}

#[test]
fn answers_over_three_messages(rt: HostRuntime) -> Result<(), Fail> {
    let alloc = rt.alloc();
    answers(&rt, alloc, b"ring", b"2: 1 3\n")?;
    answers(&rt, alloc, b"hello !ring", b"1: 2\n")?;
    answers(&rt, alloc, b"alice", b"0:\n")?;
    answers(&rt, alloc, b"(ring|bloom) !(subject hello)", b"1: 3\n")?;
    answers(&rt, alloc, b"ring|bloom|alice", b"3: 1 2 3\n")?;
    answers(&rt, alloc, b"!alice", b"3: 1 2 3\n")?;
    answers(&rt, alloc, b"!(ring|bloom)", b"0:\n")
}

/// Whether the query holds of the words of the message.
fn is_true(
    rt: &impl Abort,
    alloc: Global,
    message: &[u8],
    query: &[u8],
    expected: bool,
) -> Result<(), Fail> {
    word_list_is_the_set_of_keys();
    let words = words_of(alloc, message)?;
    let query = parse(alloc, query)?;
    assert_eq!(rt; holds(&query, &words), expected);
    Ok(())
}

#[test]
fn truth_over_a_message(rt: HostRuntime) -> Result<(), Fail> {
    let alloc = rt.alloc();
    let [_, message, _] = THREE_MESSAGES;
    is_true(&rt, alloc, message, b"hello", true)?;
    is_true(&rt, alloc, message, b"hello !ring", true)?;
    is_true(&rt, alloc, message, b"ring", false)?;
    is_true(&rt, alloc, message, b"(ring|bloom) subject", true)?;
    is_true(&rt, alloc, message, b"(ring|bloom) !(subject hello)", false)
}

#[test]
fn a_stop_is_handed_on(rt: HostRuntime) -> Result<(), Fail> {
    let alloc = rt.alloc();
    let query = parse(alloc, b"ring !bloom")?;
    let mut pairs = pairs_of(alloc, 1)?;
    let found = evaluate(alloc, &query, 3, &mut pairs).err();
    let stop = PairsStop::OutOfLists;
    assert_eq!(rt; found, Some(EvalStop::Postings { stop }));
    Ok(())
}
