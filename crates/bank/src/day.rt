//! A day at the bank: tellers and an auditor, at once.
ghost use Rattle.std.specs.Prelude.{◌≡◌, ◌+◌, ◌<◌, ◌≤◌, All, length, map, sum, IfOk, OnErr};
ghost use Rattle.std.specs.Thread.{IsSync, IsSend};
ghost use Rattle.tx_model.specs.declared.pass.PassState.TheVariants.{Idle};
ghost use Rattle.tx_model.specs.Calls.{IsLater};
ghost use Rattle.bank.specs.Bank.{money_in, transfers_left};
ghost use Rattle.bank.specs.Transfer.{IsOrder};
ghost use Rattle.bank.specs.Tellers.{IsReady, HaveServed, AreTallies, all_made, tally_of};
ghost use Rattle.bank.specs.Day.{AreSums, last_state};

use crate::audit::audit_accounts;
use crate::bank::Bank;
use crate::tellers::{Tally, Teller, dismiss, hire, serve_all};
use crate::transfer::Order;
use std::alloc::Global;
use std::sync::Wait;
use std::thread::{Threads, join_mut};
use tx_model::{Memory, TxMemory};

/// What a day came to: how the orders of each teller ended, and the sum that each audit found.
#[derive(Drop)]
pub struct Report {
    pub tallies: Vec<Tally>,
    pub audits: Vec<u64>,
}

/// Adds all accounts up so many times.
fn audit_often<M: TxMemory<Bank>, R: Wait + Sync>(
    rt: &R,
    alloc: Global,
    mem: &M,
    pass: &mut M::Pass,
    audits: usize,
) -> Result<Vec<u64>, Memory>
    requires of { M.of mem.now pass.old }
    requires idle { (M.view pass.old).state ≡ Idle }
    ensures of { M.of mem.now pass.new }
    ensures idle { (M.view pass.new).state ≡ Idle }
    ensures later { IsLater (M.view pass.old) (M.view pass.new) }
    ensures sums { IfOk result (λ sums. AreSums audits (money_in (M.made mem.now).sense.accounts (M.made mem.now).opening) sums.items) }
{
    let Ok(mut sums) = Vec::with_capacity(alloc, audits) else {
        return Err(Memory);
    };
    for _audit in 0..audits {
        sums.push_reserved(audit_accounts(rt, mem, pass));
    }
    Ok(sums)
}

/// Lets the tellers serve, while the pass audits.
fn serve_and_audit<P: Send, M: TxMemory<Bank, Pass = P> + Sync, R: Threads + Wait + Sync>(
    rt: &R,
    alloc: Global,
    mem: &M,
    pass: &mut P,
    orders: &[Order],
    tellers: &mut [Teller<P>],
    audits: usize,
) -> Result<Vec<u64>, Memory>
    requires of { M.of mem.now pass.old }
    requires idle { (M.view pass.old).state ≡ Idle }
    requires ready { All (IsReady (M.of mem.now) M.view (M.made mem.now).sense.accounts (M.made mem.now).opening) tellers.old }
    requires orders { All (IsOrder (M.made mem.now).sense.accounts) orders.now }
    requires life { transfers_left (M.made mem.now).sense.accounts (M.made mem.now).opening < (M.made mem.now).life }
    ensures of { M.of mem.now pass.new }
    ensures idle { (M.view pass.new).state ≡ Idle }
    ensures later { IsLater (M.view pass.old) (M.view pass.new) }
    ensures served { HaveServed (M.of mem.now) M.view (M.made mem.now).sense.accounts (M.made mem.now).opening (length orders.now) tellers.old tellers.new }
    ensures sums { IfOk result (λ sums. AreSums audits (money_in (M.made mem.now).sense.accounts (M.made mem.now).opening) sums.items) }
{
    let mut serving = ||
        requires { IsSync R.row × IsSync M.row × IsSend P.row
            × All (IsReady (M.of mem.now) M.view (M.made mem.now).sense.accounts (M.made mem.now).opening) tellers.now
            × All (IsOrder (M.made mem.now).sense.accounts) orders.now
            × (transfers_left (M.made mem.now).sense.accounts (M.made mem.now).opening < (M.made mem.now).life) }
        ensures { HaveServed (M.of mem.entry.now) M.view (M.made mem.entry.now).sense.accounts (M.made mem.entry.now).opening
            (length orders.entry.now) tellers.entry.now tellers.exit.now }
    { serve_all(rt, mem, orders, tellers) };
    let mut auditing = || -> Result<Vec<u64>, Memory>
        requires { M.of mem.now pass.now × ((M.view pass.now).state ≡ Idle) }
        ensures { M.of mem.entry.now pass.exit.now × ((M.view pass.exit.now).state ≡ Idle) × IsLater (M.view pass.entry.now) (M.view pass.exit.now)
            × IfOk result (λ sums. AreSums audits (money_in (M.made mem.entry.now).sense.accounts (M.made mem.entry.now).opening) sums.items) }
    { audit_often(rt, alloc, mem, pass, audits) };
    let ((), sums) = join_mut(rt, &mut serving, &mut auditing);
    sums
}

/// The tally of each teller.
fn tallies_of<P>(alloc: Global, tellers: &[Teller<P>]) -> Result<Vec<Tally>, Memory>
    ensures { IfOk result (λ tallies. tallies.items ≡ map tally_of tellers.now) }
{
    let Ok(mut tallies) = Vec::with_capacity(alloc, tellers.len()) else {
        return Err(Memory);
    };
    for teller in tellers {
        tallies.push_reserved(teller.tally);
    }
    Ok(tallies)
}

/// So many tellers carry out the orders, each all of them, and accounts are added up so many times meanwhile.
pub fn run_day<P: Send, M: TxMemory<Bank, Pass = P> + Sync, R: Threads + Wait + Sync>(
    rt: &R,
    alloc: Global,
    mem: &M,
    pass: &mut P,
    tellers: u64,
    orders: &[Order],
    audits: usize,
) -> Result<Report, Memory>
    requires of { M.of mem.now pass.old }
    requires idle { (M.view pass.old).state ≡ Idle }
    requires tellers { (M.made mem.now).sense.accounts + tellers ≤ length (M.made mem.now).opening }
    requires orders { All (IsOrder (M.made mem.now).sense.accounts) orders.now }
    requires life { transfers_left (M.made mem.now).sense.accounts (M.made mem.now).opening < (M.made mem.now).life }
    ensures of { M.of mem.now pass.new }
    ensures idle { (M.view pass.new).state ≡ Idle }
    ensures share { (M.view pass.new).share ≡ (M.view pass.old).share }
    ensures money { money_in (M.made mem.now).sense.accounts (last_state (M.made mem.now).opening (M.view pass.new)) ≡ money_in
        (M.made mem.now).sense.accounts (M.made mem.now).opening }
    ensures tallies { IfOk result (λ report. AreTallies tellers (length orders.now) report.tallies.items) }
    ensures made { IfOk result (λ report. length (M.view pass.new).mine ≡ length (M.view pass.old).mine + all_made report.tallies.items) }
    ensures audits { IfOk result (λ report. AreSums audits (money_in (M.made mem.now).sense.accounts (M.made mem.now).opening) report.audits.items) }
{
    let mut hired = hire(alloc, mem, pass, tellers)?;
    let audits = serve_and_audit(rt, alloc, mem, pass, orders, hired.as_mut_slice(), audits);
    let tallies = tallies_of(alloc, hired.as_slice());
    dismiss(mem, pass, hired);
    Ok(Report {
        tallies: tallies?,
        audits: audits?,
    })
}
