//! What a closed ring has.
use ring_words::Closed;
use std::process::Abort;

/// So many commits were made, none of them sealed a region, and the words at these addresses have these values.
pub fn leaves<S>(rt: &impl Abort, closed: &Closed<S>, commits: u64, words: &[(u64, u64)]) {
    assert_eq!(rt; closed.commits(), commits);
    assert_eq!(rt; closed.seals(), 0);
    for (addr, value) in words {
        assert!(rt; *addr < closed.len());
        assert_eq!(rt; closed.word(*addr), *value);
    }
}
