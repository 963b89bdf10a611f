//! Mailboxes that are made from a number, and what the benchmark's own generator makes.
use mail_gen::{GenError, make_mbox};
use sha2::{Digest, Sha256};
use std::test::Fail;

/// The first message, written out.
const FIRST: &[u8] =
    b"From gen@example.org Thu Jan  1 00:00:00 1970\nSubject: m1 d1\n\nw40503 w15470 w55974 w30941 ";

#[test]
fn made_as_the_benchmark_makes_them(rt: HostRuntime) -> Result<(), Fail> {
    let bytes = make_mbox(rt.alloc(), 2_000)?;
    let digest = hex::encode(rt.alloc(), Sha256::digest(bytes.as_slice()))?;
    assert_eq!(rt; bytes.len(), 786_620);
    assert_eq!(rt;
        digest.as_str(),
        "e62d8849536fe6f992f786837d3db906c4e349e015cce32d2989355c6301aaae"
    );
    assert!(rt; bytes.starts_with(FIRST));
    Ok(())
}

#[test]
fn made_up_to_the_largest(rt: HostRuntime) -> Result<(), Fail> {
    let none = make_mbox(rt.alloc(), 0)?;
    let all = make_mbox(rt.alloc(), 100_000)?;
    assert!(rt; none.is_empty());
    assert_eq!(rt; all.len(), 39_475_178);
    assert_eq!(rt; all.capacity(), all.len());
    assert!(rt; matches!(make_mbox(rt.alloc(), 100_001), Err(GenError::TooMany)));
    Ok(())
}
