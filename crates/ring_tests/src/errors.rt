//! The texts of refusals.
use ring_runs::ReplayError;
use ring_script::ScriptError;
use std::alloc::Global;
use std::fmt::Display;
use std::process::Abort;

fn prints<E: Display>(rt: &impl Abort, alloc: Global, error: &E, text: &str) {
    match format!(in alloc; "{error}") {
        Ok(printed) => assert_eq!(rt; printed.as_str(), text),
        Err(_) => assert!(rt; false),
    }
}

#[test]
fn refusals_of_a_schedule_are_printed(rt: HostRuntime) {
    let alloc = rt.alloc();
    let none = ReplayError::NoCaller { at: 2 };
    prints(&rt, alloc, &none, "event 2 asks a caller that isn't there");
    let early = ReplayError::NotNow { at: 0 };
    prints(&rt, alloc, &early, "event 0 can't be made now");
    let past = ReplayError::OutOfRange { at: 17 };
    prints(
        &rt,
        alloc,
        &past,
        "event 17 names a word or region that isn't there",
    );
    prints(&rt, alloc, &ReplayError::Memory, "no memory");
}

#[test]
fn refusals_of_a_script_are_printed(rt: HostRuntime) {
    let alloc = rt.alloc();
    let bad = ScriptError::BadLine { line: 3 };
    prints(&rt, alloc, &bad, "line 3 is no line of a script");
    prints(&rt, alloc, &ScriptError::Memory, "no memory");
}
