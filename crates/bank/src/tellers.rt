//! Tellers, each with a pass of its own.
ghost use Rattle.std.specs.Prelude.{◌≡◌, ◌+◌, ◌<◌, ◌≤◌, All, length, map, sum, IfOk, OnErr};
ghost use Rattle.tx_model.specs.declared.pass.PassState.TheVariants.{Idle};
ghost use Rattle.bank.specs.Bank.{transfers_left};
ghost use Rattle.bank.specs.Transfer.{IsOrder};
ghost use Rattle.bank.specs.Tellers.{orders_in, IsReady, HasServed, HaveServed, AreHired, share_of, commits_of, joined_back};

use crate::bank::Bank;
use crate::transfer::{Order, Refusal, carry_out};
use std::alloc::Global;
use std::sync::Wait;
use std::thread::{Threads, for_each_mut};
use tx_model::laws::{pass_knows, rejoined_share};
use tx_model::{Memory, TxMemory};

/// How the orders that a teller was given ended.
#[derive(Clone, Copy)]
pub struct Tally {
    pub made: u64,
    pub no_transfers_left: u64,
    pub insufficient_funds: u64,
}

/// No orders.
const NOTHING: Tally = Tally {
    made: 0,
    no_transfers_left: 0,
    insufficient_funds: 0,
};

/// One of those who move money at once.
pub struct Teller<P> {
    pub pass: P,
    pub number: u64,
    pub tally: Tally,
}

/// Carries out the orders, one after another.
pub fn serve<M: TxMemory<Bank>, R: Wait + Sync>(
    rt: &R,
    mem: &M,
    pass: &mut M::Pass,
    teller: u64,
    orders: &[Order],
) -> Tally
    requires of { M.of mem.now pass.old }
    requires idle { (M.view pass.old).state ≡ Idle }
    requires orders { All (IsOrder (M.made mem.now).sense.accounts) orders.now }
    requires teller { (M.made mem.now).sense.accounts + teller < length (M.made mem.now).opening }
    requires life { transfers_left (M.made mem.now).sense.accounts (M.made mem.now).opening < (M.made mem.now).life }
    ensures of { M.of mem.now pass.new }
    ensures idle { (M.view pass.new).state ≡ Idle }
    ensures share { (M.view pass.new).share ≡ (M.view pass.old).share }
    ensures counted { orders_in result ≡ length orders.now }
    ensures made { length (M.view pass.new).mine ≡ length (M.view pass.old).mine + result.made }
{
    let mut tally = NOTHING;
    for order in orders {
        match carry_out(rt, mem, pass, teller, *order) {
            Ok(_) => tally.made += 1,
            Err(Refusal::NoTransfersLeft) => tally.no_transfers_left += 1,
            Err(Refusal::InsufficientFunds) => tally.insufficient_funds += 1,
        }
    }
    tally
}

/// Lets the tellers serve, each in a thread of its own where one can be made.
pub fn serve_all<P: Send, M: TxMemory<Bank, Pass = P> + Sync, R: Threads + Wait + Sync>(
    rt: &R,
    mem: &M,
    orders: &[Order],
    tellers: &mut [Teller<P>],
)
    requires ready { All (IsReady (M.of mem.now) M.view (M.made mem.now).sense.accounts (M.made mem.now).opening) tellers.old }
    requires orders { All (IsOrder (M.made mem.now).sense.accounts) orders.now }
    requires life { transfers_left (M.made mem.now).sense.accounts (M.made mem.now).opening < (M.made mem.now).life }
    ensures { HaveServed (M.of mem.now) M.view (M.made mem.now).sense.accounts (M.made mem.now).opening (length orders.now) tellers.old tellers.new }
{
    let threads = tellers.len().max(1);
    for_each_mut(
        rt,
        tellers,
        threads,
        &|_, teller: &mut Teller<P>|
            requires { IsReady (M.of mem.now) M.view (M.made mem.now).sense.accounts (M.made mem.now).opening teller.now
                × All (IsOrder (M.made mem.now).sense.accounts) orders.now
                × (transfers_left (M.made mem.now).sense.accounts (M.made mem.now).opening < (M.made mem.now).life) }
            ensures { HasServed (M.of mem.entry.now) M.view (M.made mem.entry.now).sense.accounts (M.made mem.entry.now).opening
                (length orders.entry.now) teller.entry.now teller.exit.now }
        {
            teller.tally = serve(rt, mem, &mut teller.pass, teller.number, orders);
        },
    );
}

/// So many tellers, with a pass each.
pub fn hire<M: TxMemory<Bank>>(
    alloc: Global,
    mem: &M,
    pass: &mut M::Pass,
    count: u64,
) -> Result<Vec<Teller<M::Pass>>, Memory>
    requires of { M.of mem.now pass.old }
    requires idle { (M.view pass.old).state ≡ Idle }
    requires words { (M.made mem.now).sense.accounts + count ≤ length (M.made mem.now).opening }
    ensures of { M.of mem.now pass.new }
    ensures idle { (M.view pass.new).state ≡ Idle }
    ensures mine { length (M.view pass.new).mine ≡ length (M.view pass.old).mine }
    ensures hired { IfOk result (λ tellers. AreHired (M.of mem.now) M.view (M.made mem.now).sense.accounts (M.made mem.now).opening
        (M.view pass.old).share (M.view pass.new).share count tellers.items) }
    ensures share { OnErr result ((M.view pass.new).share ≡ (M.view pass.old).share) }
{
    rejoined_share();
    let Ok(mut tellers) = Vec::with_capacity(alloc, count as usize) else {
        return Err(Memory);
    };
    for number in 0..count {
        pass_knows(mem, pass);
        match mem.split(pass) {
            Ok(other) => tellers.push_reserved(Teller {
                pass: other,
                number,
                tally: NOTHING,
            }),
            Err(Memory) => {
                dismiss(mem, pass, tellers);
                return Err(Memory);
            }
        }
    }
    Ok(tellers)
}

/// Joins the passes of the tellers, the last one first.
pub fn dismiss<M: TxMemory<Bank>>(mem: &M, pass: &mut M::Pass, mut tellers: Vec<Teller<M::Pass>>)
    requires of { M.of mem.now pass.old }
    requires idle { (M.view pass.old).state ≡ Idle }
    requires ready { All (IsReady (M.of mem.now) M.view (M.made mem.now).sense.accounts (M.made mem.now).opening) tellers.items }
    ensures of { M.of mem.now pass.new }
    ensures idle { (M.view pass.new).state ≡ Idle }
    ensures share { (M.view pass.new).share ≡ joined_back (M.view pass.old).share (map (share_of M.view) tellers.items) }
    ensures mine { length (M.view pass.new).mine ≡ length (M.view pass.old).mine + sum (map (commits_of M.view) tellers.items) }
{
    while let Some(teller) = tellers.pop() {
        let Teller {
            pass: other,
            number: _,
            tally: _,
        } = teller;
        mem.join(pass, other);
    }
    tellers.destroy_empty();
}
