//! A caller that makes one attempt.
ghost use Rattle.std.specs.Prelude.{◌≡◌, IfOk};
ghost use Rattle.ring_core.specs.Outcomes.{opening};
ghost use Rattle.ring_core.specs.Request.{next_action};
ghost use Rattle.ring_core.specs.Examples.{ring_of};

use ring_core::{Action, Local, Progress, Shape};
use std::alloc::Global;
use std::process::Abort;
use std::test::Fail;
use tx_model::Memory;

fn small(alloc: Global) -> Result<Local, Memory>
    ensures { IfOk result (λ m. m ≡ record { shape = ring_of 4; caller = opening (ring_of 4) }) }
{
    Local::new(
        alloc,
        Shape {
            ring: 4,
            sig_words: 1,
            heap: 64,
            life: 100,
        },
    )
}

/// The next step of the caller is this one.
fn next_is(rt: &impl Abort, local: &Local, expected: Action)
    ensures { next_action local.now.shape local.now.caller ≡ expected }
{
    assert_eq!(rt; local.next(), expected);
}

/// This followed from a word.
fn follows(rt: &impl Abort, progress: Progress, expected: Progress)
    ensures { progress ≡ expected }
{
    assert_eq!(rt; progress, expected);
}

#[test]
fn an_attempt_reads_and_writes(rt: HostRuntime) -> Result<(), Fail> {
    let mut local = small(rt.alloc())?;
    local.start_begin();
    next_is(&rt, &local, Action::LoadIndex);
    follows(&rt, local.absorb(0), Progress::Started { start: 0 });

    assert_eq!(rt; local.start_read(1), None);
    next_is(&rt, &local, Action::LoadHeap { addr: 1 });
    follows(&rt, local.absorb(7), Progress::Going);
    next_is(&rt, &local, Action::LoadIndex);
    follows(&rt, local.absorb(0), Progress::Value { value: 7 });

    assert_eq!(rt; local.put_write(1, 9), Ok(()));
    assert_eq!(rt; local.start_read(1), Some(9));
    next_is(&rt, &local, Action::Idle);
    Ok(())
}
