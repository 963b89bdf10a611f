//! The places of some addresses, and sets of them.
ghost use Rattle.std.specs.Prelude.{◌≡◌, length};

use ring_sig::{Sig, place};
use std::process::Abort;

/// Whether two sets meet is this answer.
fn meeting_is(rt: &impl Abort, one: &Sig, other: &Sig, expected: bool)
    requires { length one.now ≡ length other.now }
{
    assert_eq!(rt; one.meets(other), expected);
}

/// Whether the place of an address is in the set is this answer.
fn has_is(rt: &impl Abort, set: &Sig, addr: u64, expected: bool) {
    assert_eq!(rt; set.has(addr), expected);
}

#[test]
fn places_of_the_table(rt: HostRuntime) {
    for (addr, want) in [(0, 0), (1, 39), (2, 15), (3, 54), (56, 39)] {
        assert_eq!(rt; place(addr, 64), want, "at {addr}");
    }
}

#[test]
fn sets_meet_by_their_places(rt: HostRuntime) {
    let mut two = Sig::empty(1);
    two.add(1);
    two.add(2);
    let mut far = Sig::empty(1);
    far.add(56);
    let mut other = Sig::empty(1);
    other.add(3);
    meeting_is(&rt, &two, &far, true);
    meeting_is(&rt, &two, &other, false);
    has_is(&rt, &two, 56, true);
    has_is(&rt, &two, 3, false);
}

#[test]
fn words_come_back(rt: HostRuntime) {
    let mut words = [7; 16];
    words[0] = 1 << 39;
    let set = Sig::of_words(1, &words);
    has_is(&rt, &set, 56, true);
    has_is(&rt, &set, 2, false);
    assert_eq!(rt; set.word(0), 1 << 39);
}
