//! What is done in an attempt.
ghost use Rattle.std.specs.Prelude.{◌≡◌, ◌+◌, ◌<◌, ◌≤◌, [], ◌∷◌, length, OnOk, IfErr};
ghost use Rattle.tx_model.specs.declared.pass.PassState.TheVariants.{Active};
ghost use Rattle.tx_model.specs.declared.pass.TheConstants.{MAX_WRITES};
ghost use Rattle.tx_model.specs.Attempt.{starting_at};
ghost use Rattle.tx_model.specs.Calls.{GoesOn, OnlyReads, IsStopped};
ghost use Rattle.tx_model.specs.Tries.{ReadyToCommit, StepStopped};
ghost use Rattle.bench_stm.specs.declared.addresses.TheConstants.{COUNTS, WORDS};
ghost use Rattle.bench_stm.specs.Countdowns.{CountsDown, commits_left};
ghost use Rattle.bench_stm.specs.Work.{HasAddresses, HasCounted, Lowers};

use crate::addresses::account;
use crate::sense::Countdowns;
use tx_model::laws::{made_well, reads_one_state};
use tx_model::{Body, BodyStep, Stop, TxMemory};

/// What each attempt of a thread does.
#[derive(Clone, Copy)]
pub enum Task {
    /// Raises the first account by 1.
    Counter,
    /// Moves 1 from an account to another.
    Transfer,
    /// Reads so many accounts.
    Scan { reads: u64 },
    /// Reads so many accounts and writes 59.
    Batch { reads: u64 },
}

/// The thread has made all its commits.
#[derive(Clone, Copy)]
pub struct Spent;

/// A task, as one thread carries it out.
#[derive(Drop)]
pub struct Work {
    pub task: Task,
    /// The word that counts the thread's commits down.
    pub count_at: u64,
    /// It says which accounts are touched.
    pub number: u64,
    pub attempts: u64,
    /// The sum of the accounts that were read.
    pub sum: u64,
}

impl<M: TxMemory<Countdowns>> Body<Countdowns, M> for Work {
    type Refusal = Spent;

    ghost task = { λ body. body.count_at ∷ [] };

    ghost needs = { λ _ opening task _. HasAddresses opening task };

    ghost did = { λ _ _ _ _ _. Unit };

    fn attempt(&mut self, mem: &M, pass: &mut M::Pass) -> Result<(), BodyStep<Spent>> {
        self.attempts = self.attempts.wrapping_add(1);
        let sum = carry_out(mem, pass, self.task, self.count_at, self.number)?;
        self.sum = self.sum.wrapping_add(sum);
        Ok(())
    }
}

/// One attempt at a task. The answer is the sum of the accounts that it read.
fn carry_out<M: TxMemory<Countdowns>>(
    mem: &M,
    pass: &mut M::Pass,
    task: Task,
    count_at: u64,
    number: u64,
) -> Result<u64, BodyStep<Spent>>
    requires of { M.of mem.now pass.old }
    requires active { (M.view pass.old).state ≡ Active }
    requires fresh { M.attempt pass.old ≡ starting_at (M.attempt pass.old).start }
    requires addresses { HasAddresses (M.made mem.now).opening (count_at ∷ []) }
    ensures of { M.of mem.now pass.new }
    ensures ready { OnOk result (ReadyToCommit (λ _. CountsDown) (λ _. commits_left) (M.made mem.now) (M.view pass.old) (M.view pass.new)
        (M.attempt pass.old) (M.attempt pass.new)) }
    ensures cause { IfErr result (λ step. StepStopped (M.shows mem.now) (λ _ _. Unit) (M.made mem.now).opening (M.view pass.old) (M.view pass.new)
        (M.attempt pass.old) (M.attempt pass.new) step) }
{
    match task {
        Task::Counter => raise_counter(mem, pass, count_at),
        Task::Transfer => transfer(mem, pass, count_at, number),
        Task::Scan { reads } => scan(mem, pass, number, reads),
        Task::Batch { reads } => do_batch(mem, pass, count_at, number, reads),
    }
}

/// Raises the first account, and gives what it was.
fn raise_counter<M: TxMemory<Countdowns>>(
    mem: &M,
    pass: &mut M::Pass,
    count_at: u64,
) -> Result<u64, BodyStep<Spent>>
    requires of { M.of mem.now pass.old }
    requires active { (M.view pass.old).state ≡ Active }
    requires fresh { M.attempt pass.old ≡ starting_at (M.attempt pass.old).start }
    requires addresses { HasAddresses (M.made mem.now).opening (count_at ∷ []) }
    ensures of { M.of mem.now pass.new }
    ensures ready { OnOk result (ReadyToCommit (λ _. CountsDown) (λ _. commits_left) (M.made mem.now) (M.view pass.old) (M.view pass.new)
        (M.attempt pass.old) (M.attempt pass.new)) }
    ensures cause { IfErr result (λ step. StepStopped (M.shows mem.now) (λ _ _. Unit) (M.made mem.now).opening (M.view pass.old) (M.view pass.new)
        (M.attempt pass.old) (M.attempt pass.new) step) }
{
    count_down(mem, pass, count_at)?;
    let value = read_account(mem, pass, 0)?;
    write_account(mem, pass, 0, value.wrapping_add(1));
    Ok(value)
}

/// Moves 1 from an account to another, and gives the sum of what they were.
fn transfer<M: TxMemory<Countdowns>>(
    mem: &M,
    pass: &mut M::Pass,
    count_at: u64,
    number: u64,
) -> Result<u64, BodyStep<Spent>>
    requires of { M.of mem.now pass.old }
    requires active { (M.view pass.old).state ≡ Active }
    requires fresh { M.attempt pass.old ≡ starting_at (M.attempt pass.old).start }
    requires addresses { HasAddresses (M.made mem.now).opening (count_at ∷ []) }
    ensures of { M.of mem.now pass.new }
    ensures ready { OnOk result (ReadyToCommit (λ _. CountsDown) (λ _. commits_left) (M.made mem.now) (M.view pass.old) (M.view pass.new)
        (M.attempt pass.old) (M.attempt pass.new)) }
    ensures cause { IfErr result (λ step. StepStopped (M.shows mem.now) (λ _ _. Unit) (M.made mem.now).opening (M.view pass.old) (M.view pass.new)
        (M.attempt pass.old) (M.attempt pass.new) step) }
{
    let other = number.wrapping_add(1 + number / 1024 % 1023);
    count_down(mem, pass, count_at)?;
    let from = read_account(mem, pass, number)?;
    let to = read_account(mem, pass, other)?;
    write_account(mem, pass, number, from.wrapping_sub(1));
    write_account(mem, pass, other, to.wrapping_add(1));
    Ok(from.wrapping_add(to))
}

/// Reads so many accounts, and gives their sum.
fn scan<M: TxMemory<Countdowns>>(
    mem: &M,
    pass: &mut M::Pass,
    number: u64,
    reads: u64,
) -> Result<u64, BodyStep<Spent>>
    requires of { M.of mem.now pass.old }
    requires active { (M.view pass.old).state ≡ Active }
    requires fresh { M.attempt pass.old ≡ starting_at (M.attempt pass.old).start }
    requires words { length (M.made mem.now).opening ≡ WORDS }
    ensures of { M.of mem.now pass.new }
    ensures ready { OnOk result (ReadyToCommit (λ _. CountsDown) (λ _. commits_left) (M.made mem.now) (M.view pass.old) (M.view pass.new)
        (M.attempt pass.old) (M.attempt pass.new)) }
    ensures cause { IfErr result (λ step. StepStopped (M.shows mem.now) (λ _ _. Unit) (M.made mem.now).opening (M.view pass.old) (M.view pass.new)
        (M.attempt pass.old) (M.attempt pass.new) step) }
{
    Ok(read_accounts(mem, pass, number, reads)?)
}

/// Reads so many accounts and writes 59, and gives the sum of what was read. The count is one more read and one more write.
fn do_batch<M: TxMemory<Countdowns>>(
    mem: &M,
    pass: &mut M::Pass,
    count_at: u64,
    number: u64,
    reads: u64,
) -> Result<u64, BodyStep<Spent>>
    requires of { M.of mem.now pass.old }
    requires active { (M.view pass.old).state ≡ Active }
    requires fresh { M.attempt pass.old ≡ starting_at (M.attempt pass.old).start }
    requires addresses { HasAddresses (M.made mem.now).opening (count_at ∷ []) }
    ensures of { M.of mem.now pass.new }
    ensures ready { OnOk result (ReadyToCommit (λ _. CountsDown) (λ _. commits_left) (M.made mem.now) (M.view pass.old) (M.view pass.new)
        (M.attempt pass.old) (M.attempt pass.new)) }
    ensures cause { IfErr result (λ step. StepStopped (M.shows mem.now) (λ _ _. Unit) (M.made mem.now).opening (M.view pass.old) (M.view pass.new)
        (M.attempt pass.old) (M.attempt pass.new) step) }
{
    count_down(mem, pass, count_at)?;
    let sum = read_accounts(mem, pass, number, reads)?;
    write_accounts(mem, pass, number, 59, sum);
    Ok(sum)
}

/// Takes one off the word that counts the thread's commits.
fn count_down<M: TxMemory<Countdowns>>(
    mem: &M,
    pass: &mut M::Pass,
    count_at: u64,
) -> Result<(), BodyStep<Spent>>
    requires of { M.of mem.now pass.old }
    requires active { (M.view pass.old).state ≡ Active }
    requires fresh { M.attempt pass.old ≡ starting_at (M.attempt pass.old).start }
    requires addresses { HasAddresses (M.made mem.now).opening (count_at ∷ []) }
    ensures of { M.of mem.now pass.new }
    ensures counted { OnOk result (HasCounted 1 (M.view pass.old) (M.view pass.new) (M.attempt pass.old) (M.attempt pass.new)) }
    ensures cause { IfErr result (λ step. StepStopped (M.shows mem.now) (λ _ _. Unit) (M.made mem.now).opening (M.view pass.old) (M.view pass.new)
        (M.attempt pass.old) (M.attempt pass.new) step) }
{
    made_well(mem, pass);
    reads_one_state(mem, pass);
    let count = mem.read(pass, count_at)?;
    if count == 0 {
        return Err(BodyStep::Refused { refusal: Spent });
    }
    mem.write(pass, count_at, count - 1).unwrap();
    Ok(())
}

fn read_account<M: TxMemory<Countdowns>>(
    mem: &M,
    pass: &mut M::Pass,
    number: u64,
) -> Result<u64, Stop>
    requires of { M.of mem.now pass.old }
    requires active { (M.view pass.old).state ≡ Active }
    requires words { length (M.made mem.now).opening ≡ WORDS }
    ensures of { M.of mem.now pass.new }
    ensures reads { OnOk result (OnlyReads (M.view pass.old) (M.view pass.new) (M.attempt pass.old) (M.attempt pass.new)) }
    ensures stopped { IfErr result (IsStopped (M.shows mem.now) (M.made mem.now).opening (M.view pass.old) (M.view pass.new) (M.attempt pass.old)) }
{
    made_well(mem, pass);
    reads_one_state(mem, pass);
    mem.read(pass, account(number))
}

fn write_account<M: TxMemory<Countdowns>>(mem: &M, pass: &mut M::Pass, number: u64, value: u64)
    requires of { M.of mem.now pass.old }
    requires active { (M.view pass.old).state ≡ Active }
    requires words { length (M.made mem.now).opening ≡ WORDS }
    requires lowers { Lowers (M.attempt pass.old) }
    requires none_published { (M.attempt pass.old).published ≡ [] }
    requires room { length (M.attempt pass.old).writes < MAX_WRITES }
    ensures of { M.of mem.now pass.new }
    ensures counted { HasCounted (length (M.attempt pass.old).writes + 1) (M.view pass.old) (M.view pass.new) (M.attempt pass.old) (M.attempt pass.new) }
{
    made_well(mem, pass);
    reads_one_state(mem, pass);
    mem.write(pass, account(number), value).unwrap();
}

/// Reads so many accounts, 37 apart from each other, and adds them up.
fn read_accounts<M: TxMemory<Countdowns>>(
    mem: &M,
    pass: &mut M::Pass,
    first: u64,
    count: u64,
) -> Result<u64, Stop>
    requires of { M.of mem.now pass.old }
    requires active { (M.view pass.old).state ≡ Active }
    requires words { length (M.made mem.now).opening ≡ WORDS }
    ensures of { M.of mem.now pass.new }
    ensures reads { OnOk result (OnlyReads (M.view pass.old) (M.view pass.new) (M.attempt pass.old) (M.attempt pass.new)) }
    ensures stopped { IfErr result (IsStopped (M.shows mem.now) (M.made mem.now).opening (M.view pass.old) (M.view pass.new) (M.attempt pass.old)) }
{
    let mut sum = 0u64;
    for index in 0..count {
        let value = read_account(mem, pass, first.wrapping_add(index.wrapping_mul(37)))?;
        sum = sum.wrapping_add(value);
    }
    Ok(sum)
}

/// Writes so many accounts, 41 apart from each other, with values from this one on.
fn write_accounts<M: TxMemory<Countdowns>>(
    mem: &M,
    pass: &mut M::Pass,
    first: u64,
    count: u64,
    value: u64,
)
    requires of { M.of mem.now pass.old }
    requires active { (M.view pass.old).state ≡ Active }
    requires words { length (M.made mem.now).opening ≡ WORDS }
    requires lowers { Lowers (M.attempt pass.old) }
    requires none_published { (M.attempt pass.old).published ≡ [] }
    requires room { length (M.attempt pass.old).writes + count ≤ MAX_WRITES }
    ensures of { M.of mem.now pass.new }
    ensures counted { HasCounted (length (M.attempt pass.old).writes + count) (M.view pass.old) (M.view pass.new) (M.attempt pass.old) (M.attempt pass.new) }
{
    for index in 0..count {
        write_account(
            mem,
            pass,
            first.wrapping_add(index.wrapping_mul(41)),
            value.wrapping_add(index),
        );
    }
}
