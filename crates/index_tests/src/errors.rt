//! The texts of refusals.
use std::alloc::Global;
use std::fmt::Display;
use std::process::Abort;
use tx_model::Stop;
use tx_postings::{AddStop, FillStop, ListStop};

fn prints<E: Display, R: Abort>(rt: &R, alloc: Global, error: &E, text: &str) {
    match format!(in alloc; "{error}") {
        Ok(printed) => assert_eq!(rt; printed.as_str(), text),
        Err(_) => assert!(rt; false),
    }
}

#[test]
fn refusals_are_printed(rt: HostRuntime) {
    let alloc = rt.alloc();
    let (lane, segment, free, needs) = (5, 17, 9, 11);
    let room = "lane 5 has 9 free words in segment 17, and the batch needs 11 there";
    let full = FillStop::Room {
        lane,
        segment,
        free,
        needs,
    };
    prints(&rt, alloc, &full, room);
    let full: AddStop = full.into();
    prints(&rt, alloc, &full, room);
    let stop = Stop::Met { stamp: 3 };
    let met = "commit 3 may have written what the attempt has read";
    prints(&rt, alloc, &FillStop::Stopped { stop }, met);
    prints(&rt, alloc, &AddStop::Stopped { stop }, met);
    prints(&rt, alloc, &ListStop::Stopped { stop }, met);
    let worn = "the memory has had its last commit, number 7";
    prints(&rt, alloc, &AddStop::Worn { index: 7 }, worn);
    let sealed = "segment 4 is sealed";
    prints(&rt, alloc, &ListStop::Sealed { segment: 4 }, sealed);
    prints(&rt, alloc, &ListStop::Memory, "no memory");
}
