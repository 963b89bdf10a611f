//! Schedules whose events no script has, or whose refusals a script tells by their line alone.
use ring_core::Shape;
use ring_runs::{Act, Event, Regions, ReplayError, Setup, Trace, Words, replay};
use ring_script::print_trace;
use std::alloc::{AllocError, Global};
use std::process::Abort;
use std::test::Fail;

/// The events of a script, whose first line is its setup.
#[derive(Drop)]
struct Script {
    events: Vec<Event>,
    line: u64,
}

impl Script {
    fn new(alloc: Global) -> Script {
        Script {
            events: Vec::new(alloc),
            line: 1,
        }
    }

    /// A line with one event.
    fn ask(&mut self, who: u64, act: Act) -> Result<(), AllocError> {
        self.line = self.line.wrapping_add(1);
        let line = self.line;
        self.add(Event { who, act, line })
    }

    /// A line with a request that is run.
    fn run(&mut self, who: u64, act: Act) -> Result<(), AllocError> {
        self.ask(who, act)?;
        let line = self.line;
        self.add(Event {
            who,
            act: Act::Run,
            line,
        })
    }

    fn add(&mut self, event: Event) -> Result<(), AllocError> {
        match self.events.push(event) {
            Ok(()) => Ok(()),
            Err(_) => Err(AllocError),
        }
    }
}

/// One caller on a ring of four entries with one signature word, 64 words that are 0, and no region.
fn replayed(alloc: Global, script: &Script) -> Result<Result<Trace, ReplayError>, Fail> {
    let setup = Setup {
        shape: Shape {
            ring: 4,
            sig_words: 1,
            heap: 64,
            life: 3,
        },
        callers: 1,
        regions: Regions::of(Vec::new(alloc)),
        first: Words::of(vec![in alloc; 0; 64]?),
    };
    Ok(replay(alloc, &setup, script.events.as_slice()))
}

/// The trace has this text.
fn prints(
    rt: &impl Abort,
    alloc: Global,
    replayed: Result<Trace, ReplayError>,
    text: &[u8],
) -> Result<(), Fail> {
    let Ok(trace) = replayed else {
        return Err(Fail::new("refused"));
    };
    let printed = print_trace(alloc, &trace)?;
    assert!(rt; printed.as_slice() == text);
    Ok(())
}

/// What is read is one's own write, where there is one: the run on its line does nothing, and one on another line is refused.
#[test]
fn a_run_passes_only_on_the_line_of_its_read(rt: HostRuntime) -> Result<(), Fail> {
    let alloc = rt.alloc();
    let mut script = Script::new(alloc);
    script.run(0, Act::Begin)?;
    script.ask(0, Act::Write { addr: 1, value: 7 })?;
    script.run(0, Act::Read { addr: 1 })?;
    let trace = replayed(alloc, &script)?;
    prints(&rt, alloc, trace, b"0 start 0\n0 value 1 7\nindex 0\n")?;
    script.ask(0, Act::Run)?;
    let refused = replayed(alloc, &script)?;
    assert!(rt; matches!(refused, Err(ReplayError::NotNow { at: 5 })));
    Ok(())
}

/// The first event alone is replayed by one caller, and refused.
fn refused(alloc: Global, who: u64, act: Act) -> Result<Result<Trace, ReplayError>, Fail> {
    let mut script = Script::new(alloc);
    script.ask(who, act)?;
    replayed(alloc, &script)
}

#[test]
fn refusals_come_in_their_order(rt: HostRuntime) -> Result<(), Fail> {
    let alloc = rt.alloc();
    let none = refused(alloc, 1, Act::Read { addr: 64 })?;
    assert!(rt; matches!(none, Err(ReplayError::NoCaller { at: 0 })));
    let past = refused(alloc, 0, Act::Read { addr: 64 })?;
    assert!(rt; matches!(past, Err(ReplayError::OutOfRange { at: 0 })));
    let early = refused(alloc, 0, Act::Read { addr: 63 })?;
    assert!(rt; matches!(early, Err(ReplayError::NotNow { at: 0 })));
    let region = refused(alloc, 0, Act::Seal { region: 0 })?;
    assert!(rt; matches!(region, Err(ReplayError::OutOfRange { at: 0 })));
    let turn = refused(alloc, 0, Act::Turn)?;
    assert!(rt; matches!(turn, Err(ReplayError::NotNow { at: 0 })));
    let nothing = refused(alloc, 0, Act::Step { count: 0 })?;
    prints(&rt, alloc, nothing, b"index 0\n")
}

/// A step past the end of its request is refused.
#[test]
fn steps_end_with_their_request(rt: HostRuntime) -> Result<(), Fail> {
    let alloc = rt.alloc();
    let mut script = Script::new(alloc);
    script.ask(0, Act::Begin)?;
    script.ask(0, Act::Step { count: 2 })?;
    let past = replayed(alloc, &script)?;
    assert!(rt; matches!(past, Err(ReplayError::NotNow { at: 1 })));
    Ok(())
}
