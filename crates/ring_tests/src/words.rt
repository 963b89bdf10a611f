//! Attempts on the running ring, and its shapes at the ends.
ghost use Rattle.std.specs.Prelude.{◌≡◌, ◌<◌, ◌≤◌, ◌^◌, [], length, IfOk};
ghost use Rattle.ring_sig.specs.Signature.{IsWordCount};
ghost use Rattle.tx_model.specs.declared.pass.PassState.TheVariants.{Idle, Active};
ghost use Rattle.ring_words.specs.Pass.{made_by, view_of, first_pass, IsOf};

use crate::leaves::leaves;
use ring_words::{Closed, Ring, RingPass};
use std::alloc::Global;
use std::process::Abort;
use std::test::Fail;
use std::thread::{Threads, join_mut};
use tx_model::{Memory, PassState, Sense, WriteFull};

/// A memory without regions, of which any words are good.
#[derive(Drop)]
struct Plain;

impl Sense for Plain {
    ghost use Rattle.std.specs.Prelude.{ℕ, ◌≡◌, ◌≤◌, []};

    ghost allows = { λ _ regions. regions ≡ [] };

    ghost good = { λ _ opening words. 0 ≤ 0 };

    ghost budget = { λ _ words. 0 };

    ghost budget_falls = { λ _ opening words good. good };
}

/// A ring of so many entries with signatures of so many words, and its first pass.
fn opened(
    alloc: Global,
    first: Vec<u64>,
    ring: u64,
    sig_words: u64,
) -> Result<(Ring<Plain>, RingPass<Plain>), Memory>
    requires size { (1 ≤ length first.items) × (length first.items ≤ 2 ^ 27) }
    requires entries { (1 ≤ ring) × (ring ≤ 4096) }
    requires signatures { IsWordCount sig_words }
    ensures of { IfOk result (λ r. IsOf ⟦<Plain as Sense>⟧.allows ⟦<Plain as Sense>⟧.good ⟦<Plain as Sense>⟧.budget r.0 r.1) }
    ensures opening { IfOk result (λ r. ((made_by r.0).opening ≡ first.items) × ((made_by r.0).regions ≡ [])) }
    ensures view { IfOk result (λ r. view_of r.1 ≡ first_pass) }
{
    Ring::new(
        alloc,
        Plain,
        first,
        Vec::new(alloc),
        ring,
        sig_words,
        1 << 60,
    )
}

/// Reads a word in an attempt of its own.
fn read_one<S: Sense>(ring: &Ring<S>, pass: &mut RingPass<S>, addr: u64) -> Option<u64>
    requires of { IsOf S.allows S.good S.budget ring.now pass.old }
    requires idle { (view_of pass.old).state ≡ Idle }
    requires within { addr < length (made_by ring.now).opening }
    requires no_regions { (made_by ring.now).regions ≡ [] }
    ensures of { IsOf S.allows S.good S.budget ring.now pass.new }
    ensures idle { (view_of pass.new).state ≡ Idle }
    ensures share { (view_of pass.new).share ≡ (view_of pass.old).share }
{
    ring.begin(pass);
    let Ok(value) = ring.read(pass, addr) else {
        return None;
    };
    ring.give_up(pass);
    Some(value)
}

/// Writes 1 to an address.
fn write_one<S: Sense>(ring: &Ring<S>, pass: &mut RingPass<S>, addr: u64) -> Result<(), WriteFull>
    requires of { IsOf S.allows S.good S.budget ring.now pass.old }
    requires active { (view_of pass.old).state ≡ Active }
    requires within { addr < length (made_by ring.now).opening }
    requires no_regions { (made_by ring.now).regions ≡ [] }
    ensures of { IsOf S.allows S.good S.budget ring.now pass.new }
    ensures same { view_of pass.new ≡ view_of pass.old }
{
    ring.write(pass, addr, 1)
}

/// Writes to so many addresses from 0 on, and says how many of the writes were taken.
fn write_first<S: Sense>(ring: &Ring<S>, pass: &mut RingPass<S>, count: u64) -> u64
    requires of { IsOf S.allows S.good S.budget ring.now pass.old }
    requires active { (view_of pass.old).state ≡ Active }
    requires within { count ≤ length (made_by ring.now).opening }
    requires no_regions { (made_by ring.now).regions ≡ [] }
    ensures of { IsOf S.allows S.good S.budget ring.now pass.new }
    ensures same { view_of pass.new ≡ view_of pass.old }
{
    let mut written = 0;
    for addr in 0..count {
        if write_one(ring, pass, addr) == Ok(()) {
            written += 1;
        }
    }
    written
}

/// An attempt writes to 256 addresses, to one more and to the first one, and is given up. The address past the 256th alone is refused.
fn fills<S: Sense>(rt: &impl Abort, ring: &Ring<S>, pass: &mut RingPass<S>)
    requires of { IsOf S.allows S.good S.budget ring.now pass.old }
    requires idle { (view_of pass.old).state ≡ Idle }
    requires within { 257 ≤ length (made_by ring.now).opening }
    requires no_regions { (made_by ring.now).regions ≡ [] }
    ensures of { IsOf S.allows S.good S.budget ring.now pass.new }
    ensures idle { (view_of pass.new).state ≡ Idle }
    ensures share { (view_of pass.new).share ≡ (view_of pass.old).share }
{
    ring.begin(pass);
    let written = write_first(ring, pass, 256);
    assert_eq!(rt; written, 256);
    let room = ring.room(pass);
    assert_eq!(rt; room, 0);
    let new_address = write_one(ring, pass, 256);
    assert_eq!(rt; new_address, Err(WriteFull));
    let first_address = write_one(ring, pass, 0);
    assert_eq!(rt; first_address, Ok(()));
    ring.give_up(pass);
    let state = ring.state(pass);
    assert_eq!(rt; state, PassState::Idle);
}

#[test]
fn the_257th_address_is_refused(rt: HostRuntime) -> Result<(), Fail> {
    let words = vec![in rt.alloc(); 0; 300]?;
    let (ring, mut pass) = opened(rt.alloc(), words, 4, 1)?;
    fills(&rt, &ring, &mut pass);
    leaves(&rt, &ring.close(pass), 0, &[(0, 0)]);
    Ok(())
}

/// Two passes read a word, each on a thread of its own.
fn read_beside<R: Threads + Sync, S: Sense + Send + Sync>(
    rt: &R,
    ring: &Ring<S>,
    first: &mut RingPass<S>,
    second: &mut RingPass<S>,
    addr: u64,
) -> (Option<u64>, Option<u64>)
    requires of { IsOf S.allows S.good S.budget ring.now first.old × IsOf S.allows S.good S.budget ring.now second.old }
    requires idle { ((view_of first.old).state ≡ Idle) × ((view_of second.old).state ≡ Idle) }
    requires within { addr < length (made_by ring.now).opening }
    requires no_regions { (made_by ring.now).regions ≡ [] }
    ensures of { IsOf S.allows S.good S.budget ring.now first.new × IsOf S.allows S.good S.budget ring.now second.new }
    ensures idle { ((view_of first.new).state ≡ Idle) × ((view_of second.new).state ≡ Idle) }
    ensures first { (view_of first.new).share ≡ (view_of first.old).share }
    ensures second { (view_of second.new).share ≡ (view_of second.old).share }
{
    let mut one = || -> Option<u64>
        requires { IsOf S.allows S.good S.budget ring.now first.now × ((view_of first.now).state ≡ Idle) ×
            (addr < length (made_by ring.now).opening) × ((made_by ring.now).regions ≡ []) }
        ensures { IsOf S.allows S.good S.budget ring.entry.now first.exit.now × ((view_of first.exit.now).state ≡ Idle) ×
            ((view_of first.exit.now).share ≡ (view_of first.entry.now).share) }
    { read_one(ring, first, addr) };
    let mut other = || -> Option<u64>
        requires { IsOf S.allows S.good S.budget ring.now second.now × ((view_of second.now).state ≡ Idle) ×
            (addr < length (made_by ring.now).opening) × ((made_by ring.now).regions ≡ []) }
        ensures { IsOf S.allows S.good S.budget ring.entry.now second.exit.now × ((view_of second.exit.now).state ≡ Idle) ×
            ((view_of second.exit.now).share ≡ (view_of second.entry.now).share) }
    { read_one(ring, second, addr) };
    join_mut(rt, &mut one, &mut other)
}

#[test]
fn two_threads_read_one_word(rt: HostRuntime) -> Result<(), Fail> {
    let words = vec![in rt.alloc(); 0, 0, 0, 5]?;
    let (ring, mut pass) = opened(rt.alloc(), words, 4, 1)?;
    let Ok(mut other) = ring.split(&mut pass) else {
        drop(ring.close(pass));
        return Err("no memory".into());
    };
    let both = read_beside(&rt, &ring, &mut pass, &mut other, 3);
    assert_eq!(rt; both, (Some(5), Some(5)));
    ring.join(&mut pass, other);
    let note = ring.note(&mut pass);
    ring.learn(&mut pass, note);
    leaves(&rt, &ring.close(pass), 0, &[(3, 5)]);
    Ok(())
}

/// Opens a ring of one word, reads it, and closes the ring.
fn one_word(alloc: Global, ring: u64, sig_words: u64) -> Result<(Option<u64>, Closed<Plain>), Fail>
    requires entries { (1 ≤ ring) × (ring ≤ 4096) }
    requires signatures { IsWordCount sig_words }
{
    let words = vec![in alloc; 7]?;
    let (ring, mut pass) = opened(alloc, words, ring, sig_words)?;
    let value = read_one(&ring, &mut pass, 0);
    Ok((value, ring.close(pass)))
}

#[test]
fn shapes_at_the_ends(rt: HostRuntime) -> Result<(), Fail> {
    for (entries, sig_words) in [(1, 1), (1, 16), (4096, 1), (4096, 16)] {
        let (value, closed) = one_word(rt.alloc(), entries, sig_words)?;
        assert_eq!(rt; value, Some(7));
        leaves(&rt, &closed, 0, &[(0, 7)]);
    }
    Ok(())
}
