//! The opening of an index, and the segments that it opens with.
ghost use Rattle.std.specs.Prelude.{◌≡◌};
ghost use Rattle.tx_model.specs.declared.pass.PassState.TheVariants.{Idle};

use crate::asked::{Call, words_after};
use crate::mailbox::three_messages;
use mail_words::key_of;
use std::sync::Wait;
use std::test::Fail;
use tx_buckets::find;
use tx_heap::{MailSense, open_segment, opening};
use tx_model::TxMemory;

/// Addresses in the opening of three messages, with the words there.
const OPENING_WORDS: [(usize, u64); 16] = [
    (0, 8),
    (1, 1),
    (8, 8),
    (9, 0),
    (16, 4),
    (17, 4),
    (18, 2),
    (19, 1),
    (26, 1),
    (27, 0),
    (35, 1_032),
    (36, 0),
    (32_803, 1_032),
    (229_411, 1_032),
    (262_178, 0),
    (262_179, 9),
];

/// The word at an address, or 9 past the end.
fn word_at(words: &[u64], address: usize) -> u64 {
    words.get(address).copied().unwrap_or(9)
}

#[test]
fn opening_of_three_messages(rt: HostRuntime) -> Result<(), Fail> {
    let sense = three_messages(rt.alloc())?;
    let words = opening(rt.alloc(), &sense)?;
    for (address, word) in &OPENING_WORDS {
        assert_eq!(rt; word_at(&words, *address), *word);
    }
    Ok(())
}

#[test]
fn regions_of_three_messages(rt: HostRuntime) -> Result<(), Fail> {
    let sense = three_messages(rt.alloc())?;
    let regions = sense.plan().regions(rt.alloc())?;
    assert_eq!(rt; regions.len(), 8);
    Ok(())
}

/// The own segment of a lane, in an attempt of its own that nothing stops.
pub fn own_segment<M: TxMemory<MailSense>, R: Wait + Sync>(
    rt: &R,
    mem: &M,
    pass: &mut M::Pass,
    lane: u64,
) -> Option<u64>
    requires of { M.of mem.now pass.old }
    requires idle { (M.view pass.old).state ≡ Idle }
    ensures of { M.of mem.now pass.new }
    ensures idle { (M.view pass.new).state ≡ Idle }
    ensures share { (M.view pass.new).share ≡ (M.view pass.old).share }
{
    if lane >= 8 {
        return None;
    }
    mem.begin(rt, pass);
    let Ok(segment) = open_segment(mem, pass, lane) else {
        return None;
    };
    mem.give_up(pass);
    Some(segment)
}

#[test]
fn each_lane_opens_its_own_segment(rt: HostRuntime) -> Result<(), Fail> {
    let sense = three_messages(rt.alloc())?;
    let calls = [
        Call::Open {
            lane: 0,
            segment: 0,
        },
        Call::Open {
            lane: 7,
            segment: 7,
        },
    ];
    let words = words_after(&rt, rt.alloc(), sense, &calls)?;
    assert_eq!(rt; words.len(), 262_179);
    Ok(())
}

/// The offset of the word's record in the own segment of a lane, in an attempt of its own that nothing stops.
pub fn offset_of<M: TxMemory<MailSense>, R: Wait + Sync>(
    rt: &R,
    mem: &M,
    pass: &mut M::Pass,
    lane: u64,
    word: &[u8],
) -> Option<Option<u64>>
    requires of { M.of mem.now pass.old }
    requires idle { (M.view pass.old).state ≡ Idle }
    ensures of { M.of mem.now pass.new }
    ensures idle { (M.view pass.new).state ≡ Idle }
    ensures share { (M.view pass.new).share ≡ (M.view pass.old).share }
{
    let key = key_of(word)?;
    if lane >= 8 {
        return None;
    }
    mem.begin(rt, pass);
    let Ok(segment) = open_segment(mem, pass, lane) else {
        return None;
    };
    let Ok(offset) = find(mem, pass, segment, &key) else {
        return None;
    };
    mem.give_up(pass);
    Some(offset)
}

#[test]
fn the_opening_has_no_record(rt: HostRuntime) -> Result<(), Fail> {
    let sense = three_messages(rt.alloc())?;
    let calls = [Call::Find {
        lane: 3,
        word: b"hello",
        offset: None,
    }];
    let words = words_after(&rt, rt.alloc(), sense, &calls)?;
    assert_eq!(rt; words.len(), 262_179);
    Ok(())
}
