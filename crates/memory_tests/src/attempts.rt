//! What an attempt leaves of the memory that runs one attempt at a time, given up or committed.
ghost use Rattle.std.specs.Prelude.{◌≡◌, ◌≤◌, ◌<◌, length};
ghost use Rattle.tx_model.specs.declared.pass.PassState.TheVariants.{Idle, Active};

use crate::asked::{Call, words_after, written};
use std::sync::Wait;
use std::test::Fail;
use tx_model::laws::made_well;
use tx_model::{Stop, TxMemory, WriteFull};
use tx_uses::Countdown;

/// Writes its own address to so many words from 0 on, and says how many of the writes weren't refused.
fn write_first<M: TxMemory<Countdown>>(mem: &M, pass: &mut M::Pass, count: u64) -> u64
    requires of { M.of mem.now pass.old }
    requires active { (M.view pass.old).state ≡ Active }
    requires within { count ≤ length (M.made mem.now).opening }
    ensures of { M.of mem.now pass.new }
    ensures same { M.view pass.new ≡ M.view pass.old }
{
    let mut written = 0;
    for addr in 0..count {
        if write_one(mem, pass, addr, addr) == Ok(()) {
            written += 1;
        }
    }
    written
}

fn write_one<M: TxMemory<Countdown>>(
    mem: &M,
    pass: &mut M::Pass,
    addr: u64,
    value: u64,
) -> Result<(), WriteFull>
    requires of { M.of mem.now pass.old }
    requires active { (M.view pass.old).state ≡ Active }
    requires within { addr < length (M.made mem.now).opening }
    ensures of { M.of mem.now pass.new }
    ensures same { M.view pass.new ≡ M.view pass.old }
{
    made_well(mem, pass);
    mem.write(pass, addr, value)
}

/// Reads a word, and gives the attempt up.
fn read_and_give_up<M: TxMemory<Countdown>>(
    mem: &M,
    pass: &mut M::Pass,
    addr: u64,
) -> Result<u64, Stop>
    requires of { M.of mem.now pass.old }
    requires active { (M.view pass.old).state ≡ Active }
    requires within { addr < length (M.made mem.now).opening }
    ensures of { M.of mem.now pass.new }
    ensures idle { (M.view pass.new).state ≡ Idle }
    ensures share { (M.view pass.new).share ≡ (M.view pass.old).share }
{
    made_well(mem, pass);
    let value = mem.read(pass, addr)?;
    mem.give_up(pass);
    Ok(value)
}

/// Writes to 256 addresses, to one more and to the first one, reads that one, and gives the attempt up. The address past the 256th alone
/// is refused, and there is room for 256 again.
pub fn fills<M: TxMemory<Countdown>, R: Wait + Sync>(rt: &R, mem: &M, pass: &mut M::Pass) -> bool
    requires of { M.of mem.now pass.old }
    requires idle { (M.view pass.old).state ≡ Idle }
    requires within { 257 ≤ length (M.made mem.now).opening }
    ensures of { M.of mem.now pass.new }
    ensures idle { (M.view pass.new).state ≡ Idle }
    ensures share { (M.view pass.new).share ≡ (M.view pass.old).share }
{
    mem.begin(rt, pass);
    let written = write_first(mem, pass, 256);
    let room = mem.room(pass);
    let new_address = write_one(mem, pass, 256, 1);
    let first_address = write_one(mem, pass, 0, 1);
    let first_value = read_and_give_up(mem, pass, 0);
    written == 256
        && room == 0
        && new_address == Err(WriteFull)
        && first_address == Ok(())
        && first_value == Ok(1)
        && mem.room(pass) == 256
}

#[test]
fn restores_a_full_attempt(rt: HostRuntime) -> Result<(), Fail> {
    let words = vec![in rt.alloc(); 7; 300]?;
    let words = words_after(&rt, rt.alloc(), words, 9, &[Call::Fill])?;
    assert_eq!(rt; words, vec![in rt.alloc(); 7; 300]?);
    Ok(())
}

#[test]
fn settles_what_was_written(rt: HostRuntime) -> Result<(), Fail> {
    let words = vec![in rt.alloc(); 7; 300]?;
    let calls = [
        Call::Raise {
            word: 299,
            answer: Ok(written(1)),
        },
        Call::Length { answer: 300 },
        Call::Fill,
        Call::Read {
            word: 299,
            answer: Ok(8),
        },
    ];
    let words = words_after(&rt, rt.alloc(), words, 9, &calls)?;
    assert_eq!(rt; words.len(), 300);
    Ok(())
}
