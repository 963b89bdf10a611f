//! Where a message lies.
/// Places in the bytes: from `from` on, up to but without `to`.
#[derive(Clone, Copy, Debug, PartialEq, Eq)]
pub struct Span {
    pub from: u64,
    pub to: u64,
}
