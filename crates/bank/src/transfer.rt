//! Money that moves from one account to another.
ghost use Rattle.std.specs.Prelude.{◌≡◌, ◌+◌, ◌<◌, length, IfOk, IfErr};
ghost use Rattle.tx_model.specs.declared.pass.PassState.TheVariants.{Idle};
ghost use Rattle.bank.specs.Bank.{transfers_left};
ghost use Rattle.bank.specs.Transfer.{IsOrder, DidTransfer, Transferred, NotTransferred, MayTransfer, task_of};

use crate::bank::Bank;
use std::sync::Wait;
use tx_model::laws::{made_well, reads_one_state};
use tx_model::{Body, BodyStep, BodyStop, Receipt, TxMemory, atomically};

/// To move an amount from one account to another.
#[derive(Clone, Copy)]
pub struct Order {
    pub from: u64,
    pub to: u64,
    pub amount: u64,
}

/// Why an order isn't carried out.
#[derive(Clone, Copy)]
pub enum Refusal {
    /// The teller has made all its transfers.
    NoTransfersLeft,
    /// The account has less than the amount.
    InsufficientFunds,
}

/// What is tried: a teller carries out an order.
#[derive(Drop)]
pub struct Transfer {
    pub teller: u64,
    pub order: Order,
}

impl<M: TxMemory<Bank>> Body<Bank, M> for Transfer {
    type Refusal = Refusal;

    ghost task = { λ body. task_of body.teller body.order };

    ghost needs = { λ bank opening task _. MayTransfer bank.accounts opening task };

    ghost did = { λ bank opening body. DidTransfer bank.accounts body.teller body.order opening };

    fn attempt(&mut self, mem: &M, pass: &mut M::Pass) -> Result<(), BodyStep<Refusal>> {
        made_well(mem, pass);
        reads_one_state(mem, pass);
        let Order { from, to, amount } = self.order;
        let count_at = mem.sense().count_of(self.teller);
        let count = mem.read(pass, count_at)?;
        if count == 0 {
            return Err(BodyStep::Refused {
                refusal: Refusal::NoTransfersLeft,
            });
        }
        let payer = mem.read(pass, from)?;
        if payer < amount {
            return Err(BodyStep::Refused {
                refusal: Refusal::InsufficientFunds,
            });
        }
        let payee = mem.read(pass, to)?;
        mem.write(pass, count_at, count - 1).unwrap();
        mem.write(pass, from, payer - amount).unwrap();
        mem.write(pass, to, payee + amount).unwrap();
        Ok(())
    }
}

/// Carries out an order, or says why it can't be carried out.
pub fn carry_out<M: TxMemory<Bank>, R: Wait + Sync>(
    rt: &R,
    mem: &M,
    pass: &mut M::Pass,
    teller: u64,
    order: Order,
) -> Result<Receipt, Refusal>
    requires of { M.of mem.now pass.old }
    requires idle { (M.view pass.old).state ≡ Idle }
    requires order { IsOrder (M.made mem.now).sense.accounts order }
    requires teller { (M.made mem.now).sense.accounts + teller < length (M.made mem.now).opening }
    requires life { transfers_left (M.made mem.now).sense.accounts (M.made mem.now).opening < (M.made mem.now).life }
    ensures of { M.of mem.now pass.new }
    ensures idle { (M.view pass.new).state ≡ Idle }
    ensures share { (M.view pass.new).share ≡ (M.view pass.old).share }
    ensures transferred { IfOk result (Transferred (M.made mem.now).sense.accounts teller order (M.made mem.now).opening (M.view pass.old) (M.view pass.new)) }
    ensures refused { IfErr result (NotTransferred (M.made mem.now).sense.accounts teller order (M.made mem.now).opening (M.view pass.old) (M.view pass.new)) }
{
    let mut body = Transfer { teller, order };
    match atomically(rt, mem, pass, &mut body) {
        Ok(receipt) => Ok(receipt),
        Err(BodyStop::Refused { refusal }) => Err(refusal),
        Err(BodyStop::Worn { index: _ }) => unreachable!(),
    }
}
