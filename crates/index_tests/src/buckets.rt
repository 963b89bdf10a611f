//! Records that are found and put.
ghost use Rattle.std.specs.Prelude.{◌≡◌, ◌+◌, ◌-◌, ◌≤◌, OnOk, OnErr, length};
ghost use Rattle.tx_model.specs.declared.pass.PassState.TheVariants.{Idle};
ghost use Rattle.tx_model.specs.declared.pass.TheConstants.{MAX_WRITES};
ghost use Rattle.index_tests.specs.Puts.{IsReady};

use crate::asked::{Call, words_after};
use crate::mailbox::three_messages;
use mail_words::{Key, key_of, lane_of};
use std::sync::Wait;
use std::test::Fail;
use tx_buckets::{find, insert, read_word};
use tx_heap::{MailSense, open_segment};
use tx_model::{Stop, TxMemory};

/// Where a segment has its free offset.
const FREE: u64 = 0;

/// The last free offset at which a record fits.
const LAST_FREE: u64 = 32_762;

/// Puts a record of the key, where it is of the lane, has none, and there is room.
fn put<M: TxMemory<MailSense>>(
    mem: &M,
    pass: &mut M::Pass,
    lane: u64,
    segment: u64,
    key: &Key,
) -> Result<Option<u64>, Stop>
    requires of { M.of mem.now pass.old }
    requires ready { IsReady (M.made mem.now) (M.view pass.old) (M.attempt pass.old) lane segment }
    requires room { 9 ≤ MAX_WRITES - length (M.attempt pass.old).writes }
    ensures of { M.of mem.now pass.new }
    ensures ready { OnOk result (IsReady (M.made mem.now) (M.view pass.new) (M.attempt pass.new) lane segment) }
    ensures few { OnOk result (length (M.attempt pass.new).writes ≤ length (M.attempt pass.old).writes + 9) }
    ensures idle { OnErr result ((M.view pass.new).state ≡ Idle) }
    ensures share { (M.view pass.new).share ≡ (M.view pass.old).share }
{
    if lane_of(key) != lane {
        return Ok(None);
    }
    let None = find(mem, pass, segment, key)? else {
        return Ok(None);
    };
    let free = read_word(mem, pass, segment, FREE)?;
    if free > LAST_FREE {
        return Ok(None);
    }
    let at = insert(mem, pass, segment, key)?;
    Ok(Some(at))
}

/// Puts records of two keys into the own segment of the first one's lane, finds them, and gives the attempt up.
fn put_keys<M: TxMemory<MailSense>, R: Wait + Sync>(
    rt: &R,
    mem: &M,
    pass: &mut M::Pass,
    first: &Key,
    second: &Key,
) -> Result<[Option<u64>; 4], Stop>
    requires of { M.of mem.now pass.old }
    requires idle { (M.view pass.old).state ≡ Idle }
    ensures of { M.of mem.now pass.new }
    ensures idle { (M.view pass.new).state ≡ Idle }
    ensures share { (M.view pass.new).share ≡ (M.view pass.old).share }
{
    mem.begin(rt, pass);
    let lane = lane_of(first);
    let segment = open_segment(mem, pass, lane)?;
    let one = put(mem, pass, lane, segment, first)?;
    let other = put(mem, pass, lane, segment, second)?;
    let found_one = find(mem, pass, segment, first)?;
    let found_other = find(mem, pass, segment, second)?;
    mem.give_up(pass);
    Ok([one, other, found_one, found_other])
}

/// Where the records of two words are put, and where they are found, in an attempt that nothing stops.
pub fn put_two<M: TxMemory<MailSense>, R: Wait + Sync>(
    rt: &R,
    mem: &M,
    pass: &mut M::Pass,
    first: &[u8],
    second: &[u8],
) -> Option<[Option<u64>; 4]>
    requires of { M.of mem.now pass.old }
    requires idle { (M.view pass.old).state ≡ Idle }
    ensures of { M.of mem.now pass.new }
    ensures idle { (M.view pass.new).state ≡ Idle }
    ensures share { (M.view pass.new).share ≡ (M.view pass.old).share }
{
    let first = key_of(first)?;
    let second = key_of(second)?;
    put_keys(rt, mem, pass, &first, &second).ok()
}

#[test]
fn two_keys_of_a_lane_stand_one_behind_the_other(rt: HostRuntime) -> Result<(), Fail> {
    let sense = three_messages(rt.alloc())?;
    let offsets = [Some(1_032), Some(1_038), Some(1_032), Some(1_038)];
    let two_buckets = Call::PutTwo {
        first: b"hello",
        second: b"test",
        offsets,
    };
    let one_bucket = Call::PutTwo {
        first: b"dn",
        second: b"dx",
        offsets,
    };
    let words = words_after(&rt, rt.alloc(), sense, &[two_buckets, one_bucket])?;
    assert_eq!(rt; words.len(), 262_179);
    Ok(())
}
