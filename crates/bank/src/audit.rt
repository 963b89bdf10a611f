//! The sum of all accounts.
ghost use Rattle.std.specs.Prelude.{◌≡◌, [], OnErr, OnOk, IfOk, IfErr};
ghost use Rattle.tx_model.specs.declared.pass.PassState.TheVariants.{Active, Idle};
ghost use Rattle.tx_model.specs.Calls.{GoesOn, Ended, IsLater};
ghost use Rattle.tx_model.specs.Opacity.{IsShown};
ghost use Rattle.bank.specs.Bank.{money_in};
ghost use Rattle.bank.specs.Audit.{Audits, DidAudit, Audited};

use crate::bank::Bank;
use std::convert::Infallible;
use std::sync::Wait;
use tx_model::laws::{made_well, reads_one_state};
use tx_model::{Body, BodyStep, BodyStop, Stop, TxMemory, atomically};

/// Reads all accounts in the attempt, which has written nothing yet, and adds them up.
pub fn add_accounts<M: TxMemory<Bank>>(mem: &M, pass: &mut M::Pass) -> Result<u64, Stop>
    requires of { M.of mem.now pass.old }
    requires active { (M.view pass.old).state ≡ Active }
    requires unwritten { (M.attempt pass.old).writes ≡ [] }
    ensures of { M.of mem.now pass.new }
    ensures audits { IfOk result (Audits (M.made mem.now).sense.accounts (M.made mem.now).opening (M.attempt pass.old) (M.attempt pass.new)) }
    ensures goes_on { OnOk result (GoesOn (M.view pass.old) (M.view pass.new) (M.attempt pass.old) (M.attempt pass.new)) }
    ensures ended { OnErr result (Ended (M.view pass.old) (M.view pass.new) (M.attempt pass.old)) }
    ensures cause { IfErr result (IsShown (M.shows mem.now) (M.made mem.now).opening (M.view pass.new).history (M.attempt pass.old).start) }
{
    made_well(mem, pass);
    let mut total = 0;
    let accounts = mem.sense().accounts;
    for account in 0..accounts {
        reads_one_state(mem, pass);
        let balance = mem.read(pass, account)?;
        total += balance;
    }
    Ok(total)
}

/// What is tried: to add all accounts up.
#[derive(Drop)]
struct Audit {
    total: u64,
}

impl<M: TxMemory<Bank>> Body<Bank, M> for Audit {
    type Refusal = Infallible;

    ghost task = { λ _. [] };

    ghost needs = { λ _ _ _ _. Unit {0} };

    ghost did = { λ bank opening body. DidAudit bank.accounts body.total opening };

    fn attempt(&mut self, mem: &M, pass: &mut M::Pass) -> Result<(), BodyStep<Infallible>> {
        self.total = add_accounts(mem, pass)?;
        Ok(())
    }
}

/// The money in all accounts.
pub fn audit_accounts<M: TxMemory<Bank>, R: Wait + Sync>(rt: &R, mem: &M, pass: &mut M::Pass) -> u64
    requires of { M.of mem.now pass.old }
    requires idle { (M.view pass.old).state ≡ Idle }
    ensures of { M.of mem.now pass.new }
    ensures idle { (M.view pass.new).state ≡ Idle }
    ensures later { IsLater (M.view pass.old) (M.view pass.new) }
    ensures audited { Audited (M.made mem.now).sense.accounts (M.made mem.now).opening (M.view pass.old) result }
{
    let mut body = Audit { total: 0 };
    match atomically(rt, mem, pass, &mut body) {
        Ok(_) => body.total,
        Err(BodyStop::Refused { refusal: _ }) => unreachable!(),
        Err(BodyStop::Worn { index: _ }) => unreachable!(),
    }
}
