//! The texts of refusals.
use std::alloc::Global;
use std::fmt::Display;
use std::process::Abort;
use tx_model::{BodyStep, BodyStop, CommitError, Memory, Stop, WriteFull};
use tx_uses::{ApartStop, RaiseRefusal, SeenStop};

fn prints<E: Display, R: Abort>(rt: &R, alloc: Global, error: &E, text: &str) {
    match format!(in alloc; "{error}") {
        Ok(printed) => assert_eq!(rt; printed.as_str(), text),
        Err(_) => assert!(rt; false),
    }
}

#[test]
fn refusals_of_a_memory_are_printed(rt: HostRuntime) {
    let alloc = rt.alloc();
    let full = "the attempt has written as many addresses as it may";
    prints(&rt, alloc, &WriteFull, full);
    prints(&rt, alloc, &Memory, "no memory");
    let met = Stop::Met { stamp: 3 };
    let met_text = "commit 3 may have written what the attempt has read";
    prints(&rt, alloc, &met, met_text);
    let overrun = Stop::Overrun { stamp: 3, seen: 9 };
    let overrun_text = "commit 3 can no longer be compared, after 9 commits";
    prints(&rt, alloc, &overrun, overrun_text);
    prints(&rt, alloc, &CommitError::Stopped { stop: met }, met_text);
    let worn_text = "the memory has had its last commit, number 7";
    prints(&rt, alloc, &CommitError::Worn { index: 7 }, worn_text);
}

#[test]
fn refusals_of_a_body_are_printed(rt: HostRuntime) {
    let alloc = rt.alloc();
    let overrun = Stop::Overrun { stamp: 3, seen: 9 };
    let step: BodyStep<RaiseRefusal> = overrun.into();
    let overrun_text = "commit 3 can no longer be compared, after 9 commits";
    prints(&rt, alloc, &step, overrun_text);
    let spent = RaiseRefusal::Spent;
    let spent_text = "there may be no more commit";
    prints(
        &rt,
        alloc,
        &BodyStep::Refused { refusal: spent },
        spent_text,
    );
    let stop = BodyStop::Refused { refusal: spent };
    prints(&rt, alloc, &stop, spent_text);
    let worn: BodyStop<RaiseRefusal> = BodyStop::Worn { index: 7 };
    prints(
        &rt,
        alloc,
        &worn,
        "the memory has had its last commit, number 7",
    );
    prints(
        &rt,
        alloc,
        &RaiseRefusal::Full,
        "the word has the greatest value",
    );
    prints(&rt, alloc, &ApartStop::Memory, "no memory");
    let stop = ApartStop::NotRaised { stop };
    prints(&rt, alloc, &stop, spent_text);
    prints(&rt, alloc, &SeenStop::NotRaised { stop }, spent_text);
}
