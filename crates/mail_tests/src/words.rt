//! Words, their keys, and the word lists of a mailbox.
use mail_words::{
    Key, ListsError, Memory, WordBytes, bytes_of, key_of, key_of_words, lists_of, words_of,
};
use mbox_cut::Span;
use std::alloc::{AllocError, Global};
use std::process::Abort;

const MAILBOX: &[u8] =
    b"From alice@example.org Mon Mar  3 09:15:02 2008\nSubject: Ring test\n\nHello ring\n\n\
      From bob@example.org Mon Mar  3 09:20:00 2008\nSubject: other\n\nhello bloom\n\n\
      From carol@example.org Mon Mar  3 09:25:00 2008\nRING bloom bloom\n\n";

const SPANS: [Span; 3] = [
    Span { from: 48, to: 80 },
    Span { from: 126, to: 155 },
    Span { from: 203, to: 221 },
];

#[test]
fn limit_on_postings(rt: HostRuntime) -> Result<(), ListsError> {
    let nine = lists_of(rt.alloc(), MAILBOX, &SPANS, 9);
    assert!(rt; matches!(nine, Err(ListsError::TooMany)));
    let lists = lists_of(rt.alloc(), MAILBOX, &SPANS, 10)?;
    assert_eq!(rt; (lists.messages(), lists.postings()), (3, 10));
    Ok(())
}

/// The word of the key of a text is the text in lower case, with zero bytes after it.
fn has_word(rt: &impl Abort, text: &[u8], lower: &[u8]) {
    let found = key_of(text).map(|key| bytes_of(&key));
    let mut padded = [0; 32];
    for (into, byte) in padded.iter_mut().zip(lower) {
        *into = *byte;
    }
    let expected = WordBytes {
        bytes: padded,
        len: lower.len(),
    };
    assert_eq!(rt; found, Some(expected));
}

#[test]
fn words_and_their_keys(rt: HostRuntime) {
    has_word(&rt, b"Subject", b"subject");
    has_word(&rt, b"RING", b"ring");
    has_word(&rt, b"hello", b"hello");
    has_word(&rt, b"b2", b"b2");
    let long = b"b3duZXJzaGlwIHJlY29yZHMu";
    has_word(&rt, long, b"b3duzxjzaglwihjly29yzhmu");
    let ring = key_of(b"ring").map(|key| (key.k0, key.k1, key.k2, key.k3));
    assert_eq!(rt; ring, Some((0x72696e6700000000, 0, 0, 0)));
}

/// The key of four numbers is this one, or there is none.
fn has_key(rt: &impl Abort, numbers: [u64; 4], expected: Option<Key>) {
    let [k0, k1, k2, k3] = numbers;
    assert_eq!(rt; key_of_words(k0, k1, k2, k3), expected);
}

#[test]
fn numbers_that_are_keys(rt: HostRuntime) {
    has_key(&rt, [0x72696e6700000000, 0, 0, 0], key_of(b"ring"));
    has_key(&rt, [0, 0, 0, 0], None);
    has_key(&rt, [0x7269006e67000000, 0, 0, 0], None);
    has_key(&rt, [0x52696e6700000000, 0, 0, 0], None);
    has_key(&rt, [0x72696e6700000000, 1, 0, 0], None);
}

fn is_no_word(rt: &impl Abort, text: &[u8]) {
    assert_eq!(rt; key_of(text), None);
}

#[test]
fn no_words(rt: HostRuntime) {
    is_no_word(&rt, b"");
    is_no_word(&rt, b"two words");
    is_no_word(&rt, b"abcdefghijklmnopqrstuvwxyzabcdefg");
}

/// The words of the message are these, with a space behind each.
fn has_words(
    rt: &impl Abort,
    alloc: Global,
    message: &[u8],
    expected: &[u8],
) -> Result<(), Memory> {
    let mut found = Vec::new(alloc);
    for key in words_of(alloc, message)?.iter() {
        let word = bytes_of(key);
        found.extend_from_slice(&word.bytes[..word.len])?;
        found.push(b' ')?;
    }
    assert_eq!(rt; found.as_slice(), expected);
    Ok(())
}

#[test]
fn three_messages(rt: HostRuntime) -> Result<(), Memory> {
    let alloc = rt.alloc();
    let first = b"Subject: Ring test\n\nHello ring\n\n";
    has_words(&rt, alloc, first, b"hello ring subject test ")?;
    let second = b"Subject: other\n\nhello bloom\n\n";
    has_words(&rt, alloc, second, b"bloom hello other subject ")?;
    has_words(&rt, alloc, b"RING bloom bloom\n\n", b"bloom ring ")
}

#[test]
fn base64_lines(rt: HostRuntime) -> Result<(), Memory> {
    let lines =
        b"UmluZ1NUTSB1c2VzIGEgcmluZyBvZiBjb21taXR0ZWQgd3JpdGUgc2lnbmF0dXJlcyBhbmQgbm8g\nb3duZXJzaGlwIHJlY29yZHMu\n";
    has_words(&rt, rt.alloc(), lines, b"b3duzxjzaglwihjly29yzhmu ")
}

#[test]
fn memory_is_named(rt: HostRuntime) -> Result<(), AllocError> {
    let text = Memory.to_string(rt.alloc())?;
    assert_eq!(rt; text.as_str(), "no memory");
    Ok(())
}
