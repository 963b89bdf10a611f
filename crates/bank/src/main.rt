//! A bank whose tellers move money in threads, by transactions, while an auditor adds all accounts up.
#![tactic(auto)]

ghost use Rattle.std.specs.Prelude.{◌≡◌, ◌≢◌, ◌+◌, ◌*◌, ◌<◌, ◌≤◌, ◌^◌, ◌++◌, All, length, replicate, IfOk};
ghost use Rattle.bank.specs.Bank.{money_in};
ghost use Rattle.bank.specs.Transfer.{IsOrder};
ghost use Rattle.bank.specs.Tellers.{AreTallies};
ghost use Rattle.bank.specs.Day.{AreSums};
ghost use Rattle.ring_words.specs.Closing.{last_words};

mod audit;
mod bank;
mod day;
mod laws;
mod tellers;
mod transfer;

use bank::Bank;
use day::{Report, run_day};
use ring_memory::RingMemory;
use ring_words::{Closed, Ring};
use std::alloc::Global;
use std::sync::Wait;
use std::thread::Threads;
use transfer::Order;
use turn_memory::TurnMemory;
use tx_model::Memory;
use tx_model::laws::pass_knows;

/// How many accounts, tellers and so on there are.
#[derive(Clone, Copy)]
struct Plan {
    accounts: u64,
    /// What each account has at the opening.
    balance: u64,
    tellers: u64,
    /// How many transfers each teller may make.
    transfers: u64,
    audits: usize,
}

/// The words of a bank: the accounts, and then a word for each teller.
fn opening_of(alloc: Global, plan: &Plan) -> Result<Vec<u64>, Memory>
    ensures words { IfOk result (λ words. words.items ≡ replicate plan.now.accounts plan.now.balance ++ replicate plan.now.tellers plan.now.transfers) }
    ensures money { IfOk result (λ words. money_in plan.now.accounts words.items ≡ plan.now.accounts * plan.now.balance) }
{
    let Ok(mut words) = Vec::from_elem(alloc, plan.balance, plan.accounts as usize) else {
        return Err(Memory);
    };
    let Ok(counts) = Vec::from_elem(alloc, plan.transfers, plan.tellers as usize) else {
        return Err(Memory);
    };
    match words.extend_from_slice(counts.as_slice()) {
        Ok(()) => Ok(words),
        Err(_) => Err(Memory),
    }
}

/// A day at a bank over the memory that runs one attempt at a time, and the words that it leaves.
fn day_over_turn_memory<R: Threads + Wait + Sync>(
    rt: &R,
    alloc: Global,
    plan: &Plan,
    orders: &[Order],
) -> Result<(Report, Vec<u64>), Memory>
    requires words { (0 < plan.now.accounts) × (plan.now.accounts + plan.now.tellers ≤ 2 ^ 27) }
    requires money { plan.now.accounts * plan.now.balance < 2 ^ 64 }
    requires transfers { plan.now.tellers * plan.now.transfers < 2 ^ 60 }
    requires orders { All (IsOrder plan.now.accounts) orders.now }
    ensures money { IfOk result (λ day. money_in plan.now.accounts day.1.items ≡ plan.now.accounts * plan.now.balance) }
    ensures audits { IfOk result (λ day. AreSums plan.now.audits (plan.now.accounts * plan.now.balance) day.0.audits.items) }
    ensures tallies { IfOk result (λ day. AreTallies plan.now.tellers (length orders.now) day.0.tallies.items) }
{
    let words = opening_of(alloc, plan)?;
    let bank = Bank {
        accounts: plan.accounts,
    };
    let life = plan.tellers * plan.transfers + 1;
    let (mem, mut pass) = TurnMemory::new(alloc, bank, words, Vec::new(alloc), life)?;
    let report = run_day(
        rt,
        alloc,
        &mem,
        &mut pass,
        plan.tellers,
        orders,
        plan.audits,
    );
    let words = mem.close(pass);
    Ok((report?, words))
}

/// A day at a bank over a ring of so many entries, and the ring that it leaves.
fn day_on_ring<R: Threads + Wait + Sync>(
    rt: &R,
    alloc: Global,
    plan: &Plan,
    orders: &[Order],
    entries: u64,
) -> Result<(Report, Closed<Bank>), Memory>
    requires words { (0 < plan.now.accounts) × (plan.now.accounts + plan.now.tellers ≤ 2 ^ 27) }
    requires money { plan.now.accounts * plan.now.balance < 2 ^ 64 }
    requires transfers { plan.now.tellers * plan.now.transfers < 2 ^ 60 }
    requires orders { All (IsOrder plan.now.accounts) orders.now }
    requires entries { (1 ≤ entries) × (entries ≤ 4096) }
    ensures money { IfOk result (λ day. money_in plan.now.accounts (last_words day.1) ≡ plan.now.accounts * plan.now.balance) }
    ensures audits { IfOk result (λ day. AreSums plan.now.audits (plan.now.accounts * plan.now.balance) day.0.audits.items) }
    ensures tallies { IfOk result (λ day. AreTallies plan.now.tellers (length orders.now) day.0.tallies.items) }
{
    let words = opening_of(alloc, plan)?;
    let bank = Bank {
        accounts: plan.accounts,
    };
    let life = plan.tellers * plan.transfers + 1;
    let (ring, mut pass) = Ring::new(alloc, bank, words, Vec::new(alloc), entries, 16, life)?;
    let mem = RingMemory { ring };
    let report = run_day(
        rt,
        alloc,
        &mem,
        &mut pass,
        plan.tellers,
        orders,
        plan.audits,
    );
    pass_knows(&mem, &pass);
    let RingMemory { ring } = mem;
    let closed = ring.close(pass);
    Ok((report?, closed))
}

/// The account after this one among so many. After the last one it is the first.
fn account_after(accounts: u64, account: u64) -> u64
    requires several { 1 < accounts }
    requires account { account < accounts }
    ensures within { result < accounts }
    ensures apart { account ≢ result }
{
    if account + 1 < accounts {
        account + 1
    } else {
        0
    }
}

/// How much the order of this number among so many moves. One asks for more than the bank has.
fn amount_of(number: u64, count: u64) -> u64 {
    if number == count / 2 {
        10_000
    } else {
        1 + number % 4
    }
}

/// The orders that each teller is given: round all accounts.
fn orders_for(alloc: Global, plan: &Plan, count: u64) -> Result<Vec<Order>, Memory>
    requires { 1 < plan.now.accounts }
    ensures { IfOk result (λ orders. All (IsOrder plan.now.accounts) orders.items) }
{
    let Ok(mut orders) = Vec::with_capacity(alloc, count as usize) else {
        return Err(Memory);
    };
    for number in 0..count {
        let from = number % plan.accounts;
        orders.push_reserved(Order {
            from,
            to: account_after(plan.accounts, from),
            amount: amount_of(number, count),
        });
    }
    Ok(orders)
}

/// What is printed is the same in whatever order the threads come. Each teller is given 121 orders, and makes the first 100 that can
/// be paid. One asks for 10,000, which is more than the whole bank has, and is refused. Of the others an account pays at most
/// 4 tellers * 21 orders * 4 = 336 of its 1,000, and twice as much to 8 tellers, so it never runs short, whatever it has received before.
const PLAN: Plan = Plan {
    accounts: 6,
    balance: 1_000,
    tellers: 4,
    transfers: 100,
    audits: 3,
};

/// On the ring there are more tellers, and one entry for all their commits.
const ON_RING: Plan = Plan { tellers: 8, ..PLAN };

const ENTRIES: u64 = 1;

const ORDERS: u64 = 121;

fn main(rt: HostRuntime) -> anyhow::Result<()> {
    let orders = orders_for(rt.alloc(), &PLAN, ORDERS)?;
    let (report, words) = day_over_turn_memory(&rt, rt.alloc(), &PLAN, orders.as_slice())?;
    for (account, balance) in words.iter().take(PLAN.accounts as usize).enumerate() {
        println!(rt; "account {account}: {balance}")?;
    }
    for (teller, tally) in report.tallies.iter().enumerate() {
        println!(rt;
            "teller {teller}: {} transfers made, {} refused for want of money, {} after the last",
            tally.made, tally.insufficient_funds, tally.no_transfers_left
        )?;
    }
    for total in &report.audits {
        println!(rt; "audit: {total}")?;
    }
    let (report, closed) = day_on_ring(&rt, rt.alloc(), &ON_RING, orders.as_slice(), ENTRIES)?;
    for account in 0..closed.len().min(ON_RING.accounts) {
        println!(rt; "on the ring, account {account}: {}", closed.word(account))?;
    }
    for (teller, tally) in report.tallies.iter().enumerate() {
        println!(rt;
            "on the ring, teller {teller}: {} transfers made",
            tally.made
        )?;
    }
    for total in &report.audits {
        println!(rt; "on the ring, audit: {total}")?;
    }
    Ok(())
}
