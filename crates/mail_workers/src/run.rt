//! Several workers at once.
ghost use Rattle.std.specs.Prelude.{◌≡◌, ◌≢◌, ◌<◌, ◌≤◌, ◌^◌, ℕ, List, [], All, length, map, OnOk, IfOk, OnErr};
ghost use Rattle.std.specs.List.{range_with_len};
ghost use Rattle.tx_model.specs.declared.pass.PassState.TheVariants.{Idle};
ghost use Rattle.tx_model.specs.declared.view.PassView.{PassView};
ghost use Rattle.tx_model.specs.Pass.{IsWhole};
ghost use Rattle.tx_model.specs.Shares.{joined};
ghost use Rattle.tx_heap.specs.Calls.{made_sizes};
ghost use Rattle.tx_heap.specs.Mail.{mail_budget};
ghost use Rattle.mail_workers.specs.JobPasses.{IsJobPassOf, job_view};
ghost use Rattle.mail_workers.specs.Jobs.{IsWholeJob};
ghost use Rattle.mail_workers.specs.Workers.{HasGained, AllMoves, AreIndexed, HasIndexed, IsReady, HasWorked, HaveWorked, AreHired, share_of, job_share_of, joined_back};

use crate::gate::Gate;
use crate::jobs::{JobPass, Jobs};
use crate::report::{Drawn, Report};
use crate::worker::work;
use std::alloc::Global;
use std::sync::Wait;
use std::thread::{Threads, for_each_mut};
use tx_heap::MailSense;
use tx_model::laws::{made_well, pass_knows, rejoined_share};
use tx_model::{Memory, TxMemory};

/// One of the callers that work at once.
pub struct Worker<P> {
    pub pass: P,
    pub mine: JobPass,
    /// Workers count from 1.
    pub number: u64,
    pub outcome: Result<Report, Memory>,
}

/// Lets the workers work, each in a thread of its own where one can be made.
fn run_all<M: TxMemory<MailSense> + Sync, G: Gate + Sync, R: Threads + Wait + Sync>(
    rt: &R,
    alloc: Global,
    mem: &M,
    jobs: &Jobs,
    gate: &G,
    workers: &mut [Worker<M::Pass>],
)
where
    M::Pass: Send,
    requires ready { All (IsReady (M.of mem.now) M.view (M.made mem.now) jobs.now) workers.old }
    requires life { mail_budget (M.made mem.now).sense (M.made mem.now).opening < (M.made mem.now).life }
    ensures { HaveWorked (M.of mem.now) M.view (M.made mem.now) jobs.now workers.old workers.new }
{
    let threads = workers.len().max(1);
    for_each_mut(
        rt,
        workers,
        threads,
        &|_, worker: &mut Worker<M::Pass>|
            requires { IsReady (M.of mem.now) M.view (M.made mem.now) jobs.now worker.now
                × (mail_budget (M.made mem.now).sense (M.made mem.now).opening < (M.made mem.now).life) }
            ensures { HasWorked (M.of mem.entry.now) M.view (M.made mem.entry.now) jobs.entry.now worker.entry.now worker.exit.now }
        {
            worker.outcome = work(
                rt,
                alloc,
                mem,
                &mut worker.pass,
                jobs,
                &mut worker.mine,
                worker.number,
                gate,
            );
        },
    );
}

/// So many workers, with a pass of each kind. A refusal joins all that were split off.
fn hire<M: TxMemory<MailSense>, R: Wait + Sync>(
    rt: &R,
    alloc: Global,
    mem: &M,
    pass: &mut M::Pass,
    jobs: &Jobs,
    mine: &mut JobPass,
    count: u64,
) -> Result<Vec<Worker<M::Pass>>, Memory>
    requires of { M.of mem.now pass.old }
    requires idle { (M.view pass.old).state ≡ Idle }
    requires mine { IsJobPassOf jobs.now mine.old }
    requires filled { (job_view mine.old).total ≡ (made_sizes (M.made mem.now)).messages }
    requires count { count < 2 ^ 32 }
    ensures of { M.of mem.now pass.new }
    ensures idle { (M.view pass.new).state ≡ Idle }
    ensures mine { IsJobPassOf jobs.now mine.new }
    ensures total { (job_view mine.new).total ≡ (job_view mine.old).total }
    ensures gained { HasGained (M.made mem.now) (M.view pass.old) (job_view mine.old).drawn (M.view pass.new) (job_view mine.new).drawn }
    ensures hired { IfOk result (λ workers. AreHired (M.of mem.now) M.view (M.made mem.now) jobs.now (M.view pass.old).front
        (M.view pass.old).share (job_view mine.old).share (M.view pass.new).share (job_view mine.new).share workers.items) }
    ensures share { OnErr result ((M.view pass.new).share ≡ (M.view pass.old).share) }
    ensures job_share { OnErr result ((job_view mine.new).share ≡ (job_view mine.old).share) }
{
    rejoined_share();
    let Ok(mut workers) = Vec::with_capacity(alloc, count as usize) else {
        return Err(Memory);
    };
    for number in 0..count {
        pass_knows(mem, pass);
        let other = match mem.split(pass) {
            Ok(other) => other,
            Err(Memory) => {
                let _outcome = dismiss(rt, mem, pass, jobs, mine, workers);
                return Err(Memory);
            }
        };
        let Ok(other_mine) = jobs.split(rt, mine) else {
            unreachable!()
        };
        workers.push_reserved(Worker {
            pass: other,
            mine: other_mine,
            number: number + 1,
            outcome: Ok(Report {
                drawn: Drawn::of(Vec::new(alloc)),
            }),
        });
    }
    Ok(workers)
}

/// Joins the passes of the workers, the last one first.
fn dismiss<M: TxMemory<MailSense>, R: Wait + Sync>(
    rt: &R,
    mem: &M,
    pass: &mut M::Pass,
    jobs: &Jobs,
    mine: &mut JobPass,
    mut workers: Vec<Worker<M::Pass>>,
) -> Result<(), Memory>
    requires of { M.of mem.now pass.old }
    requires idle { (M.view pass.old).state ≡ Idle }
    requires mine { IsJobPassOf jobs.now mine.old }
    requires ready { All (IsReady (M.of mem.now) M.view (M.made mem.now) jobs.now) workers.items }
    ensures of { M.of mem.now pass.new }
    ensures idle { (M.view pass.new).state ≡ Idle }
    ensures mine { IsJobPassOf jobs.now mine.new }
    ensures total { (job_view mine.new).total ≡ (job_view mine.old).total }
    ensures share { (M.view pass.new).share ≡ joined_back (M.view pass.old).share (map (share_of M.view) workers.items) }
    ensures job_share { (job_view mine.new).share ≡ joined_back (job_view mine.old).share (map job_share_of workers.items) }
    ensures gained { (first : PassView) (before : List ℕ) → All (HasIndexed M.view (M.made mem.now) first.front) workers.items
        → HasGained (M.made mem.now) first before (M.view pass.old) (job_view mine.old).drawn
        → HasGained (M.made mem.now) first before (M.view pass.new) (job_view mine.new).drawn }
{
    let mut outcome = Ok(());
    while let Some(worker) = workers.pop() {
        outcome = outcome.and(take_back(rt, mem, pass, jobs, mine, worker));
    }
    workers.destroy_empty();
    outcome
}

/// Joins the passes of one worker. It says how its work ended.
fn take_back<M: TxMemory<MailSense>, R: Wait + Sync>(
    rt: &R,
    mem: &M,
    pass: &mut M::Pass,
    jobs: &Jobs,
    mine: &mut JobPass,
    worker: Worker<M::Pass>,
) -> Result<(), Memory>
    requires of { M.of mem.now pass.old }
    requires idle { (M.view pass.old).state ≡ Idle }
    requires mine { IsJobPassOf jobs.now mine.old }
    requires ready { IsReady (M.of mem.now) M.view (M.made mem.now) jobs.now worker }
    ensures of { M.of mem.now pass.new }
    ensures idle { (M.view pass.new).state ≡ Idle }
    ensures mine { IsJobPassOf jobs.now mine.new }
    ensures total { (job_view mine.new).total ≡ (job_view mine.old).total }
    ensures share { (M.view pass.new).share ≡ joined (M.view pass.old).share (share_of M.view worker) }
    ensures job_share { (job_view mine.new).share ≡ joined (job_view mine.old).share (job_share_of worker) }
    ensures gained { (first : PassView) (before : List ℕ) → HasIndexed M.view (M.made mem.now) first.front worker
        → HasGained (M.made mem.now) first before (M.view pass.old) (job_view mine.old).drawn
        → HasGained (M.made mem.now) first before (M.view pass.new) (job_view mine.new).drawn }
{
    let Worker {
        pass: other,
        mine: other_mine,
        number: _,
        outcome,
    } = worker;
    mem.join(pass, other);
    jobs.join(rt, mine, other_mine);
    match outcome {
        Ok(_report) => Ok(()),
        Err(Memory) => Err(Memory),
    }
}

/// Runs so many workers beside each other, and lets the whole passes look for what is left.
fn work_together<M: TxMemory<MailSense> + Sync, G: Gate + Sync, R: Threads + Wait + Sync>(
    rt: &R,
    alloc: Global,
    mem: &M,
    pass: &mut M::Pass,
    jobs: &Jobs,
    mine: &mut JobPass,
    workers: u64,
    gate: &G,
) -> Result<(), Memory>
where
    M::Pass: Send,
    requires of { M.of mem.now pass.old }
    requires idle { (M.view pass.old).state ≡ Idle }
    requires mine { IsJobPassOf jobs.now mine.old }
    requires filled { (job_view mine.old).total ≡ (made_sizes (M.made mem.now)).messages }
    requires workers { workers ≤ 64 }
    requires life { mail_budget (M.made mem.now).sense (M.made mem.now).opening < (M.made mem.now).life }
    ensures of { M.of mem.now pass.new }
    ensures idle { (M.view pass.new).state ≡ Idle }
    ensures share { (M.view pass.new).share ≡ (M.view pass.old).share }
    ensures mine { IsJobPassOf jobs.now mine.new }
    ensures total { (job_view mine.new).total ≡ (job_view mine.old).total }
    ensures job_share { (job_view mine.new).share ≡ (job_view mine.old).share }
    ensures gained { HasGained (M.made mem.now) (M.view pass.old) (job_view mine.old).drawn (M.view pass.new) (job_view mine.new).drawn }
    ensures all { OnOk result (IsWholeJob (job_view mine.new) → (job_view mine.new).drawn ≡ range_with_len 1 (job_view mine.new).total) }
{
    let mut hired = match hire(rt, alloc, mem, pass, jobs, mine, workers) {
        Ok(hired) => hired,
        Err(Memory) => return Err(Memory),
    };
    run_all(rt, alloc, mem, jobs, gate, hired.as_mut_slice());
    match dismiss(rt, mem, pass, jobs, mine, hired) {
        Ok(()) => {}
        Err(Memory) => return Err(Memory),
    }
    // That the whole passes find nothing left shows that all was drawn.
    match work(rt, alloc, mem, pass, jobs, mine, 1, gate) {
        Ok(_nothing) => Ok(()),
        Err(Memory) => Err(Memory),
    }
}

/// The report of all: the messages from 1 to the last one.
fn all_drawn(alloc: Global, messages: u64) -> Result<Report, Memory>
    ensures { IfOk result (λ report. report.drawn ≡ range_with_len 1 messages) }
{
    let mut numbers = Vec::new(alloc);
    for number in 0..messages {
        let Ok(()) = numbers.push(number + 1) else {
            return Err(Memory);
        };
    }
    Ok(Report {
        drawn: Drawn::of(numbers),
    })
}

/// So many workers index all messages of the queue. Both passes are whole and have done nothing before, and all passes that are
/// split off are joined again, at `Memory` too. Workers count from 1.
///
/// The report has each message once. At `Memory` some messages may not be in the index.
pub fn run_workers<M: TxMemory<MailSense> + Sync, G: Gate + Sync, R: Threads + Wait + Sync>(
    rt: &R,
    alloc: Global,
    mem: &M,
    pass: &mut M::Pass,
    jobs: &Jobs,
    mine: &mut JobPass,
    workers: u64,
    gate: &G,
) -> Result<Report, Memory>
where
    M::Pass: Send,
    requires of { M.of mem.now pass.old }
    requires idle { (M.view pass.old).state ≡ Idle }
    requires whole { IsWhole (M.view pass.old) }
    requires owns_none { (M.view pass.old).owned ≡ [] }
    requires mine { IsJobPassOf jobs.now mine.old }
    requires filled { (job_view mine.old).total ≡ (made_sizes (M.made mem.now)).messages }
    requires whole_job { IsWholeJob (job_view mine.old) }
    requires none_drawn { (job_view mine.old).drawn ≡ [] }
    requires workers { (1 ≤ workers) × (workers ≤ 64) }
    requires life { mail_budget (M.made mem.now).sense (M.made mem.now).opening < (M.made mem.now).life }
    ensures of { M.of mem.now pass.new }
    ensures idle { (M.view pass.new).state ≡ Idle }
    ensures share { (M.view pass.new).share ≡ (M.view pass.old).share }
    ensures owns_none { (M.view pass.new).owned ≡ [] }
    ensures mine { IsJobPassOf jobs.now mine.new }
    ensures job_share { (job_view mine.new).share ≡ (job_view mine.old).share }
    ensures moves { AllMoves (M.made mem.now) (M.view pass.old) (M.view pass.new) }
    ensures drawn { IfOk result (λ report. report.drawn ≡ range_with_len 1 (made_sizes (M.made mem.now)).messages) }
    ensures indexed { OnOk result (AreIndexed (M.made mem.now) (M.view pass.old) (M.view pass.new)) }
{
    made_well(mem, pass);
    pass_knows(mem, pass);
    let outcome = work_together(rt, alloc, mem, pass, jobs, mine, workers, gate);
    pass_knows(mem, pass);
    match outcome {
        Ok(()) => all_drawn(alloc, mem.sense().plan().messages),
        Err(Memory) => Err(Memory),
    }
}
