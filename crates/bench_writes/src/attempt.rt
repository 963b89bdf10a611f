//! One attempt that writes and looks.
ghost use Rattle.std.specs.Prelude.{◌≡◌, ◌<◌, ◌^◌};
ghost use Rattle.bench_writes.specs.Ready.{IsReady, IsRunning};

use ring_core::Local;
use tx_model::MAX_WRITES;

/// How many words the heap has. It is only a limit here.
pub const HEAP: u64 = 1 << 20;

/// The address of a write. Neighbours are 37 words apart.
fn addr_of(number: u64) -> u64
    ensures { result < 2 ^ 20 }
{
    number.wrapping_mul(37) % HEAP
}

/// Makes so many attempts. The number is that of the looks which found their value.
pub fn repeat(local: &mut Local, rounds: u64) -> u64
    requires { IsReady local.old }
{
    let mut found: u64 = 0;
    for _round in 0..rounds {
        found = found.saturating_add(attempt(local));
    }
    found
}

/// Makes as many writes as an attempt may, and as many looks, and gives up. The number is that of the looks which found their value.
fn attempt(local: &mut Local) -> u64
    requires { IsReady local.old }
    ensures { IsReady local.new }
{
    local.start_begin();
    local.absorb(0);
    for number in 0..MAX_WRITES as u64 {
        write(local, addr_of(number), number);
    }
    let mut found = 0;
    for number in 0..MAX_WRITES as u64 {
        if local.writes().value_of(addr_of(number)) == Some(number) {
            found += 1;
        }
    }
    local.give_up();
    found
}

/// One write. It is never refused here.
fn write(local: &mut Local, addr: u64, value: u64)
    requires running { IsRunning local.old }
    requires heap { addr < 2 ^ 20 }
    ensures { IsRunning local.new }
{
    let _ = local.put_write(addr, value);
}
