//! `ring_stress SECONDS` lets callers on 1 to 8 threads make attempts over one ring after another, and checks that all of
//! them fit one history. How often each answer came goes to standard error. Without words it takes two seconds, and says
//! only whether they fit.
#![tactic(auto)]

ghost use Rattle.std.specs.Prelude.{◌≤◌, ◌^◌};

mod attempt;
mod caller;
mod crew;
mod dice;
mod log;
mod replay;
mod round;
mod sense;
mod tally;

use dice::Dice;
use round::{Plan, run};
use std::alloc::Global;
use std::env;
use std::sync::Wait;
use std::thread::Threads;
use std::time::Instant;
use tally::Tally;

/// How many commits the callers of a ring have together, about.
const COMMITS: u64 = 2_000;

/// What is done over the ring with this number.
fn plan_of(number: u64, dice: &mut Dice) -> Plan
    ensures words { (1 ≤ result.words) × (result.words ≤ 64) }
    ensures entries { (1 ≤ result.entries) × (result.entries ≤ 4096) }
    ensures life { (1 ≤ result.life) × (result.life ≤ 2 ^ 60) }
{
    let callers = 1 + number % 8;
    let entries = match number / 8 % 3 {
        0 => 1,
        1 => 2,
        _ => 64,
    };
    Plan {
        callers,
        entries,
        long_signatures: number / 24 % 2 == 0,
        words: 1 + dice.below(64),
        commits: COMMITS / callers,
        life: COMMITS / 2 + dice.below(COMMITS),
    }
}

fn main(rt: HostRuntime) -> anyhow::Result<()> {
    let args = env::args(&rt)?;
    let words: Vec<String> = args.skip(1).collect(rt.alloc())?;
    let seconds: Option<u64> = match words.as_slice() {
        [] => None,
        [word, ..] => Some(word.as_str().parse()?),
    };
    let limit = seconds.unwrap_or(2);
    let start = Instant::now(&rt)?;
    let mut dice = Dice::of(1);
    let mut sum = Tally::NOTHING;
    for number in 0..u64::MAX {
        if start.elapsed(&rt)?.as_secs() >= limit {
            break;
        }
        let plan = plan_of(number, &mut dice);
        sum = sum.with(run(&rt, rt.alloc(), &plan, &mut dice)?);
    }
    println!(rt; "all attempts fit one history of their ring")?;
    if seconds.is_some() {
        eprintln!(rt;
            "{} attempts: {} commits, {} that read only, {} given up",
            sum.attempts, sum.commits, sum.read_only, sum.given_up
        )?;
        eprintln!(rt;
            "stopped at a read: {} met, {} overrun",
            sum.met_at_read, sum.overrun_at_read
        )?;
        eprintln!(rt;
            "stopped at a stamp: {} met, {} overrun, {} worn",
            sum.met_at_stamp, sum.overrun_at_stamp, sum.worn
        )?;
        eprintln!(rt;
            "later: {} lost, {} unpublished, {} slot busy, {} order",
            sum.lost, sum.unpublished, sum.slot_busy, sum.order
        )?;
    }
    Ok(())
}
