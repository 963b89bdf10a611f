//! The scripts of `examples/scripts`, replayed.
use crate::scripts::{is_refused, prints};
use std::test::Fail;

pub const MEETS: &[u8] = b"\
ring 4 bits 64 words 64 callers 2 life 100
0 begin run
1 begin run
1 write 1 5
1 write 2 6
1 stamp run
1 turn
1 step 4
0 read 1 run
0 begin run
0 read 3 run
0 done
";

// Word 56 shares a place of the signature with word 1.
const SHARES_A_PLACE: &[u8] = b"\
ring 4 bits 64 words 64 callers 2 life 100
0 begin run
1 begin run
1 write 1 5
1 write 2 6
1 stamp run
1 turn
1 step 4
0 read 56 run
0 begin run
0 read 3 run
0 done
";

const HAS_MET: &[u8] = b"\
0 start 0
1 start 0
1 stamped 1
0 met 1
0 start 0
0 value 3 0
0 done 0
index 1
word 1 5
";

#[test]
fn a_read_meets_a_commit_that_is_writing(rt: HostRuntime) -> Result<(), Fail> {
    prints(&rt, rt.alloc(), MEETS, HAS_MET)?;
    prints(&rt, rt.alloc(), SHARES_A_PLACE, HAS_MET)
}

const UNPUBLISHED: &[u8] = b"\
ring 4 bits 64 words 64 callers 2 life 100
0 begin run
1 begin run
1 write 1 5
1 stamp run
0 read 1 run
0 write 3 9
0 stamp run
";

const UNPUBLISHED_TRACE: &[u8] = b"\
0 start 0
1 start 0
1 stamped 1
0 value 1 0
0 later unpublished 1 0
index 1
";

#[test]
fn a_stamp_finds_the_newest_entry_not_published(rt: HostRuntime) -> Result<(), Fail> {
    prints(&rt, rt.alloc(), UNPUBLISHED, UNPUBLISHED_TRACE)
}

const OVERRUN: &[u8] = b"\
ring 1 bits 64 words 64 callers 2 life 100
0 begin run
1 begin run
1 write 1 5
1 stamp run
1 turn run
0 read 3 run
1 begin run
1 write 1 6
1 stamp run
1 turn run
1 begin run
1 write 1 7
1 stamp run
1 turn run
0 read 4 run
";

const OVERRUN_TRACE: &[u8] = b"\
0 start 0
1 start 0
1 stamped 1
1 completed 1
0 value 3 0
1 start 1
1 stamped 2
1 completed 2
1 start 2
1 stamped 3
1 completed 3
0 overrun 2 3
index 3
word 1 7
";

#[test]
fn a_read_is_overrun(rt: HostRuntime) -> Result<(), Fail> {
    prints(&rt, rt.alloc(), OVERRUN, OVERRUN_TRACE)
}

pub const WORN: &[u8] = b"\
ring 4 bits 64 words 8 callers 1 life 3
0 begin run
0 write 1 7
0 stamp run
0 turn run
0 begin run
0 read 1 run
0 write 1 8
0 stamp run
0 turn run
0 begin run
0 write 1 9
0 stamp run
0 turn run
0 begin run
0 write 1 10
0 stamp run
0 begin run
0 read 1 run
0 done
";

const WORN_TRACE: &[u8] = b"\
0 start 0
0 stamped 1
0 completed 1
0 start 1
0 value 1 7
0 stamped 2
0 completed 2
0 start 2
0 stamped 3
0 completed 3
0 start 3
0 worn 3
0 start 3
0 value 1 9
0 done 3
index 3
word 1 9
";

#[test]
fn a_ring_is_worn(rt: HostRuntime) -> Result<(), Fail> {
    prints(&rt, rt.alloc(), WORN, WORN_TRACE)
}

pub const WAITS: &[u8] = b"\
ring 4 bits 64 words 8 callers 2 life 9
0 begin run
1 begin run
0 write 1 5
1 write 1 6
0 stamp
0 step 2
1 stamp run
0 run
1 turn
1 step 3
0 stamp run
0 turn run
1 run
0 turn run
";

const WAITS_TRACE: &[u8] = b"\
0 start 0
1 start 0
1 stamped 1
0 later lost 1
0 stamped 2
0 later order 1 6
1 completed 1
0 completed 2
index 2
word 1 5
";

#[test]
fn a_swap_is_lost_and_a_turn_waits(rt: HostRuntime) -> Result<(), Fail> {
    prints(&rt, rt.alloc(), WAITS, WAITS_TRACE)
}

const SLOT: &[u8] = b"\
ring 1 bits 64 words 8 callers 2 life 9
0 begin run
1 begin run
1 write 2 6
1 stamp run
1 turn
1 step 3
0 write 1 5
0 stamp run
";

const SLOT_TRACE: &[u8] = b"\
0 start 0
1 start 0
1 stamped 1
0 later slot 1 6
index 1
";

#[test]
fn a_slot_is_still_of_an_entry_that_writes(rt: HostRuntime) -> Result<(), Fail> {
    prints(&rt, rt.alloc(), SLOT, SLOT_TRACE)
}

pub const SEALS: &[u8] = b"\
ring 4 bits 64 words 64 callers 2 life 100
region 8 16 8
word 8 1
1 begin run
1 read 8 run
0 begin run
0 read 8 run
0 seal 0
0 stamp run
0 turn run
0 store 17 9 run
1 read 17 run
0 load 17 run
";

#[test]
fn a_seal_is_refused(rt: HostRuntime) -> Result<(), Fail> {
    is_refused(&rt, rt.alloc(), SEALS, 8)
}
