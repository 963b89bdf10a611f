//! Mailboxes that are cut, with spans that were counted by hand.
use mbox_cut::{CutError, Span, cut};
use std::alloc::Global;
use std::process::Abort;

const THREE_MESSAGES: &[u8] =
    b"From alice@example.org Mon Mar  3 09:15:02 2008\nSubject: Ring test\n\nHello ring\n\n\
      From bob@example.org Mon Mar  3 09:20:00 2008\nSubject: other\n\nhello bloom\n\n\
      From carol@example.org Mon Mar  3 09:25:00 2008\nRING bloom bloom\n\n";

/// The mailbox of three messages is cut into these, each given by where it starts and ends.
fn cuts_into(
    rt: &impl Abort,
    alloc: Global,
    mailbox: &[u8],
    ends: [(u64, u64); 3],
) -> Result<(), CutError> {
    let spans = cut(alloc, mailbox, 3)?;
    let expected = ends.map(|(from, to)| Span { from, to });
    assert_eq!(rt; spans.as_slice(), expected.as_slice());
    Ok(())
}

#[test]
fn cuts_a_mailbox(rt: HostRuntime) -> Result<(), CutError> {
    let alloc = rt.alloc();
    let short = b"\nFrom a\none\n\nFrom b\r\n\r\nFrom c";
    cuts_into(&rt, alloc, short, [(8, 13), (21, 23), (29, 29)])?;
    assert!(rt; cut(alloc, b"From\n", 3).is_err());
    Ok(())
}

#[test]
fn stops_at_the_limit(rt: HostRuntime) -> Result<(), CutError> {
    let alloc = rt.alloc();
    cuts_into(
        &rt,
        alloc,
        THREE_MESSAGES,
        [(48, 80), (126, 155), (203, 221)],
    )?;
    assert!(rt; matches!(cut(alloc, THREE_MESSAGES, 2), Err(CutError::TooMany)));
    Ok(())
}
