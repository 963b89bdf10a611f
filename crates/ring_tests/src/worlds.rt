//! Worlds that are led step by step by the laws, and every answer compared.
ghost use Rattle.std.specs.Prelude.{◌≡◌, ◌<◌, ◌≤◌, [], length};
ghost use Rattle.ring_worlds.specs.Calls.{process_at};

use ring_core::{Kind, Progress, Shape};
use ring_runs::{Regions, Setup, Words, World, laws};
use std::alloc::Global;
use std::process::Abort;
use std::test::Fail;
use tx_model::{Memory, PassState, Stop};

/// Two callers on a ring of so many entries, with one signature word, 64 words that are 0, and no region.
fn opened(alloc: Global, ring: u64) -> Result<World, Fail>
    requires some { 1 ≤ ring }
    requires most { ring ≤ 4096 }
{
    let setup = Setup {
        shape: Shape {
            ring,
            sig_words: 1,
            heap: 64,
            life: 100,
        },
        callers: 2,
        regions: Regions::of(Vec::new(alloc)),
        first: Words::of(vec![in alloc; 0; 64]?),
    };
    Ok(World::of(alloc, &setup)?)
}

/// Makes the caller's next step by the law of its kind.
fn made(world: &mut World, who: u64) -> Result<Progress, Memory>
    requires { who < length world.old.processes }
{
    match world.kind(who) {
        Some(Kind::LoadIndex) => laws::load_index(world, who),
        Some(Kind::LoadTag) => laws::load_tag(world, who),
        Some(Kind::LoadSig) => laws::load_sig(world, who),
        Some(Kind::LoadHeap) => laws::load_heap(world, who),
        Some(Kind::SwapIndex) => laws::swap_index(world, who),
        Some(Kind::StoreTagFilling) => laws::store_tag_filling(world, who),
        Some(Kind::StoreSig) => laws::store_sig(world, who),
        Some(Kind::StoreTagWriting) => laws::store_tag_writing(world, who),
        Some(Kind::StoreHeap) => laws::store_heap(world, who),
        Some(Kind::StoreTagComplete) => laws::store_tag_complete(world, who),
        None => Err(Memory),
    }
}

/// Makes these steps of the caller, the last of which has this answer, and the others none.
fn steps(
    rt: &impl Abort,
    world: &mut World,
    who: u64,
    kinds: &[Kind],
    last: Progress,
) -> Result<(), Fail> {
    for (at, kind) in kinds.iter().enumerate() {
        assert!(rt; who < world.callers());
        let answer = if at + 1 < kinds.len() {
            Progress::Going
        } else {
            last
        };
        assert_eq!(rt; world.kind(who), Some(*kind));
        assert_eq!(rt; made(world, who)?, answer);
    }
    Ok(())
}

fn begin(rt: &impl Abort, world: &mut World, who: u64) {
    assert!(rt; who < world.callers());
    assert!(rt; world.is_at(who, PassState::Idle));
    world.begin(who);
}

/// Both callers begin, where the index is 0.
fn both_begin(rt: &impl Abort, world: &mut World) -> Result<(), Fail> {
    for who in 0..2 {
        begin(rt, world, who);
        steps(
            rt,
            world,
            who,
            &[Kind::LoadIndex],
            Progress::Started { start: 0 },
        )?;
    }
    Ok(())
}

fn read(rt: &impl Abort, world: &mut World, who: u64, addr: u64) {
    assert!(rt; who < world.callers());
    assert!(rt; addr < world.len());
    assert!(rt; world.is_between(who));
    assert!(rt; world.may_read(who, addr));
    assert_eq!(rt; world.read(who, addr), None);
}

fn write(rt: &impl Abort, world: &mut World, who: u64, addr: u64, value: u64) {
    assert!(rt; who < world.callers());
    assert!(rt; addr < world.len());
    assert!(rt; world.is_between(who));
    assert!(rt; world.may_write(who, addr, value));
    assert_eq!(rt; world.write(who, addr, value), Ok(()));
}

fn stamp(rt: &impl Abort, world: &mut World, who: u64) {
    assert!(rt; who < world.callers());
    assert!(rt; world.is_between(who));
    let local = world.local(who);
    assert!(rt; 0 < local.writes().len());
    world.stamp(who);
}

fn turn(rt: &impl Abort, world: &mut World, who: u64) {
    assert!(rt; who < world.callers());
    assert!(rt; world.is_at(who, PassState::Stamped));
    world.turn(who);
}

fn done(rt: &impl Abort, world: &mut World, who: u64) -> u64 {
    assert!(rt; who < world.callers());
    assert!(rt; world.is_between(who));
    let local = world.local(who);
    assert!(rt; local.writes().len() == 0);
    world.done(who)
}

/// The memory has these two words, and so many commits were made.
fn ends(rt: &impl Abort, world: &World, commits: u64, one: u64, two: u64) {
    assert!(rt; 2 < world.len());
    assert_eq!(rt; world.index(), commits);
    assert_eq!(rt; world.commits(), commits);
    assert_eq!(rt; world.word(1), one);
    assert_eq!(rt; world.word(2), two);
}

/// The steps of a read whose check finds one entry.
const READ: [Kind; 5] = [
    Kind::LoadHeap,
    Kind::LoadIndex,
    Kind::LoadTag,
    Kind::LoadSig,
    Kind::LoadTag,
];

/// The steps of a read that is overrun.
const OVERRUN_READ: [Kind; 2] = [Kind::LoadHeap, Kind::LoadIndex];

/// The steps of a begin where there were commits.
const FURTHER_BEGIN: [Kind; 2] = [Kind::LoadIndex, Kind::LoadTag];

/// The steps of a stamp whose check finds no entry.
const STAMP: [Kind; 3] = [Kind::LoadIndex, Kind::LoadTag, Kind::SwapIndex];

/// The steps of a turn up to its first word, where it waits for no entry.
const WRITE_BACK: [Kind; 4] = [
    Kind::StoreTagFilling,
    Kind::StoreSig,
    Kind::StoreTagWriting,
    Kind::StoreHeap,
];

/// The caller writes a word and commits it, after an index of so many commits.
fn commits(
    rt: &impl Abort,
    world: &mut World,
    who: u64,
    value: u64,
    before: u64,
) -> Result<(), Fail> {
    write(rt, world, who, 1, value);
    stamp(rt, world, who);
    let stamp = before.wrapping_add(1);
    steps(rt, world, who, &STAMP, Progress::Stamped { stamp })?;
    turn(rt, world, who);
    steps(rt, world, who, &WRITE_BACK, Progress::Going)?;
    if before > 0 {
        steps(rt, world, who, &[Kind::LoadTag], Progress::Going)?;
    }
    steps(
        rt,
        world,
        who,
        &[Kind::StoreTagComplete],
        Progress::Completed { stamp },
    )
}

/// What a caller is asked.
#[derive(Clone, Copy)]
enum Ask<'a> {
    Begin,
    Read { addr: u64 },
    Write { addr: u64, value: u64 },
    Stamp,
    Turn,
    /// The attempt ends, which had this start.
    Done { start: u64 },
    /// These steps, the last of which has this answer.
    Steps { kinds: &'a [Kind], last: Progress },
    /// A commit of one word, after an index of so many commits.
    Commit { value: u64, before: u64 },
}

/// Asks the callers one after another.
fn lead(rt: &impl Abort, world: &mut World, asks: &[(u64, Ask<'_>)]) -> Result<(), Fail> {
    for (who, ask) in asks {
        let who = *who;
        match ask {
            Ask::Begin => begin(rt, world, who),
            Ask::Read { addr } => read(rt, world, who, *addr),
            Ask::Write { addr, value } => write(rt, world, who, *addr, *value),
            Ask::Stamp => stamp(rt, world, who),
            Ask::Turn => turn(rt, world, who),
            Ask::Done { start } => assert_eq!(rt; done(rt, world, who), *start),
            Ask::Steps { kinds, last } => steps(rt, world, who, kinds, *last)?,
            Ask::Commit { value, before } => commits(rt, world, who, *value, *before)?,
        }
    }
    Ok(())
}

/// These steps, the last of which has this answer.
fn take<'a>(kinds: &'a [Kind], last: Progress) -> Ask<'a> {
    Ask::Steps { kinds, last }
}

#[test]
fn a_read_meets_a_commit_that_is_writing(rt: HostRuntime) -> Result<(), Fail> {
    let mut world = opened(rt.alloc(), 4)?;
    both_begin(&rt, &mut world)?;
    let stop = Stop::Met { stamp: 1 };
    let writes_back = [
        (1, Ask::Write { addr: 1, value: 5 }),
        (1, Ask::Write { addr: 2, value: 6 }),
        (1, Ask::Stamp),
        (1, take(&STAMP, Progress::Stamped { stamp: 1 })),
        (1, Ask::Turn),
        (1, take(&WRITE_BACK, Progress::Going)),
    ];
    lead(&rt, &mut world, &writes_back)?;
    let reads = [
        (0, Ask::Read { addr: 1 }),
        (0, take(&READ, Progress::Stopped { stop })),
        (0, Ask::Begin),
        (0, take(&FURTHER_BEGIN, Progress::Started { start: 0 })),
        (0, Ask::Read { addr: 3 }),
        (0, take(&READ, Progress::Value { value: 0 })),
        (0, Ask::Done { start: 0 }),
    ];
    lead(&rt, &mut world, &reads)?;
    ends(&rt, &world, 1, 5, 0);
    Ok(())
}

#[test]
fn a_read_is_overrun(rt: HostRuntime) -> Result<(), Fail> {
    let mut world = opened(rt.alloc(), 1)?;
    both_begin(&rt, &mut world)?;
    let stop = Stop::Overrun { stamp: 2, seen: 3 };
    let asks = [
        (
            1,
            Ask::Commit {
                value: 5,
                before: 0,
            },
        ),
        (0, Ask::Read { addr: 3 }),
        (0, take(&READ, Progress::Value { value: 0 })),
        (1, Ask::Begin),
        (1, take(&FURTHER_BEGIN, Progress::Started { start: 1 })),
        (
            1,
            Ask::Commit {
                value: 6,
                before: 1,
            },
        ),
        (1, Ask::Begin),
        (1, take(&FURTHER_BEGIN, Progress::Started { start: 2 })),
        (
            1,
            Ask::Commit {
                value: 7,
                before: 2,
            },
        ),
        (0, Ask::Read { addr: 4 }),
        (0, take(&OVERRUN_READ, Progress::Stopped { stop })),
    ];
    lead(&rt, &mut world, &asks)?;
    ends(&rt, &world, 3, 7, 0);
    Ok(())
}
