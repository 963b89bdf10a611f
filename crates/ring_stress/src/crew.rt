//! Callers on threads. Each of them has a pass of its own, split off before and joined again after.
ghost use Rattle.std.specs.Prelude.{◌≡◌, ◌<◌, length};
ghost use Rattle.std.specs.Thread.{IsSync};
ghost use Rattle.tx_model.specs.declared.pass.PassState.TheVariants.{Idle};
ghost use Rattle.ring_words.specs.Pass.{made_by, view_of};
ghost use Rattle.ring_stress.specs.declared.sense.TheConstants.{CALLERS};
ghost use Rattle.ring_stress.specs.Ready.{IsCountedBy};

use crate::caller::Caller;
use crate::sense::Counts;
use ring_memory::RingMemory;
use ring_words::RingPass;
use std::sync::Wait;
use std::thread::{Threads, join_mut};
use tx_model::laws::rejoined_share;

/// Lets callers work, each on a thread of its own where one can be made.
#[cycle(halves)]
pub fn work_at_once<R: Threads + Wait + Sync>(
    rt: &R,
    mem: &RingMemory<Counts>,
    pass: &mut RingPass<Counts>,
    callers: &mut [Caller],
)
    requires of { IsCountedBy mem.now.ring pass.old }
    requires idle { (view_of pass.old).state ≡ Idle }
    requires words { CALLERS < length (made_by mem.now.ring).opening }
    ensures of { IsCountedBy mem.now.ring pass.new }
    ensures idle { (view_of pass.new).state ≡ Idle }
    ensures share { (view_of pass.new).share ≡ (view_of pass.old).share }
{
    if callers.len() < 2 {
        work_in_turn(rt, mem, pass, callers);
        return;
    }
    rejoined_share();
    let Ok(mut other) = mem.ring.split(pass) else {
        work_in_turn(rt, mem, pass, callers);
        return;
    };
    let (first, second) = callers.split_at_mut(callers.len() / 2);
    work_in_halves(rt, mem, pass, &mut other, first, second);
    mem.ring.join(pass, other);
}

/// Lets some callers work with one pass, and at once others with another.
#[cycle(halves)]
fn work_in_halves<R: Threads + Wait + Sync>(
    rt: &R,
    mem: &RingMemory<Counts>,
    pass: &mut RingPass<Counts>,
    other: &mut RingPass<Counts>,
    first: &mut [Caller],
    second: &mut [Caller],
)
    requires of { IsCountedBy mem.now.ring pass.old × IsCountedBy mem.now.ring other.old }
    requires idle { ((view_of pass.old).state ≡ Idle) × ((view_of other.old).state ≡ Idle) }
    requires words { CALLERS < length (made_by mem.now.ring).opening }
    ensures of { IsCountedBy mem.now.ring pass.new × IsCountedBy mem.now.ring other.new }
    ensures idle { ((view_of pass.new).state ≡ Idle) × ((view_of other.new).state ≡ Idle) }
    ensures share { (view_of pass.new).share ≡ (view_of pass.old).share }
    ensures other_share { (view_of other.new).share ≡ (view_of other.old).share }
{
    let mut one = ||
        requires { IsSync R.row × IsCountedBy mem.now.ring pass.now × ((view_of pass.now).state ≡ Idle)
            × (CALLERS < length (made_by mem.now.ring).opening) }
        ensures { IsCountedBy mem.entry.now.ring pass.exit.now × ((view_of pass.exit.now).state ≡ Idle)
            × ((view_of pass.exit.now).share ≡ (view_of pass.entry.now).share) }
    { work_at_once(rt, mem, pass, first) };
    let mut two = ||
        requires { IsSync R.row × IsCountedBy mem.now.ring other.now × ((view_of other.now).state ≡ Idle)
            × (CALLERS < length (made_by mem.now.ring).opening) }
        ensures { IsCountedBy mem.entry.now.ring other.exit.now × ((view_of other.exit.now).state ≡ Idle)
            × ((view_of other.exit.now).share ≡ (view_of other.entry.now).share) }
    { work_at_once(rt, mem, other, second) };
    join_mut(rt, &mut one, &mut two);
}

/// Lets callers work on this thread, one after another.
fn work_in_turn<R: Wait + Sync>(
    rt: &R,
    mem: &RingMemory<Counts>,
    pass: &mut RingPass<Counts>,
    callers: &mut [Caller],
)
    requires of { IsCountedBy mem.now.ring pass.old }
    requires idle { (view_of pass.old).state ≡ Idle }
    requires words { CALLERS < length (made_by mem.now.ring).opening }
    ensures of { IsCountedBy mem.now.ring pass.new }
    ensures idle { (view_of pass.new).state ≡ Idle }
    ensures share { (view_of pass.new).share ≡ (view_of pass.old).share }
{
    for caller in callers {
        caller.work(rt, mem, pass);
    }
}
