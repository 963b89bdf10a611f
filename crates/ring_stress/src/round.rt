//! One ring, from its opening to its closing.
ghost use Rattle.std.specs.Prelude.{◌≡◌, ◌<◌, ◌≤◌, ◌^◌, length, IfOk};
ghost use Rattle.ring_sig.specs.Signature.{IsWordCount};
ghost use Rattle.ring_stress.specs.declared.sense.TheConstants.{CALLERS};

use crate::caller::Caller;
use crate::crew::work_at_once;
use crate::dice::Dice;
use crate::replay::{Flaw, check};
use crate::sense::{CALLERS, Counts};
use crate::tally::Tally;
use ring_memory::RingMemory;
use ring_words::Ring;
use std::alloc::Global;
use std::sync::Wait;
use std::thread::Threads;

/// The shape of a ring and what is done over it.
#[derive(Clone, Copy)]
pub struct Plan {
    pub callers: u64,
    pub entries: u64,
    /// Signatures have 1,024 bits, or else 64.
    pub long_signatures: bool,
    /// How many words there are beside those that count.
    pub words: u64,
    /// How many commits each caller has.
    pub commits: u64,
    /// How many commits the ring has.
    pub life: u64,
}

/// The words of the opening: a count for each caller, and then some others.
fn opening_of(alloc: Global, plan: &Plan, dice: &mut Dice) -> Result<Vec<u64>, Flaw>
    requires words { (1 ≤ plan.now.words) × (plan.now.words ≤ 64) }
    ensures { IfOk result (λ words. (CALLERS < length words.items) × (length words.items ≤ 2 ^ 27)) }
{
    let mut words = Vec::from_elem(alloc, plan.commits, CALLERS as usize)?;
    for _word in 0..plan.words {
        words.push(dice.below(4))?;
    }
    Ok(words)
}

fn callers_of(alloc: Global, count: u64, dice: &mut Dice) -> Result<Vec<Caller>, Flaw> {
    let mut callers = Vec::new(alloc);
    for number in 0..count {
        callers.push(Caller::new(alloc, number, Dice::of(dice.next())))?;
    }
    Ok(callers)
}

/// Lets callers work over a ring, closes it, and checks all that they kept.
pub fn run<R: Threads + Wait + Sync>(
    rt: &R,
    alloc: Global,
    plan: &Plan,
    dice: &mut Dice,
) -> Result<Tally, Flaw>
    requires words { (1 ≤ plan.now.words) × (plan.now.words ≤ 64) }
    requires entries { (1 ≤ plan.now.entries) × (plan.now.entries ≤ 4096) }
    requires life { (1 ≤ plan.now.life) × (plan.now.life ≤ 2 ^ 60) }
{
    let opening = opening_of(alloc, plan, dice)?;
    let first = Vec::from_slice(alloc, opening.as_slice())?;
    let mut callers = callers_of(alloc, plan.callers, dice)?;
    let made = Ring::new(
        alloc,
        Counts,
        first,
        Vec::new(alloc),
        plan.entries,
        if plan.long_signatures { 16 } else { 1 },
        plan.life,
    );
    let Ok((ring, mut pass)) = made else {
        return Err(Flaw::Memory);
    };
    let mem = RingMemory { ring };
    work_at_once(rt, &mem, &mut pass, callers.as_mut_slice());
    let RingMemory { ring } = mem;
    let closed = ring.close(pass);
    check(alloc, opening, callers.as_slice(), &closed)?;
    sum_of(callers.as_slice())
}

/// All that was counted, where nothing is missing.
fn sum_of(callers: &[Caller]) -> Result<Tally, Flaw> {
    let mut sum = Tally::NOTHING;
    for caller in callers {
        if caller.log.torn {
            return Err(Flaw::Memory);
        }
        sum = sum.with(caller.tally);
    }
    Ok(sum)
}
