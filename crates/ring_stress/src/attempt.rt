//! The parts of an attempt.
ghost use Rattle.std.specs.Prelude.{◌≡◌, ◌<◌, ◌≤◌, [], length, OnOk, OnErr};
ghost use Rattle.tx_model.specs.declared.pass.PassState.TheVariants.{Active, Idle};
ghost use Rattle.tx_model.specs.Attempt.{starting_at};
ghost use Rattle.ring_stress.specs.declared.sense.TheConstants.{CALLERS};
ghost use Rattle.ring_stress.specs.Ready.{HasCounted};

use crate::dice::Dice;
use crate::log::{Access, Log};
use crate::sense::{CALLERS, Counts};
use tx_model::laws::{made_well, reads_one_state};
use tx_model::{Stop, TxMemory};

/// Why an attempt of a caller came to nothing.
#[derive(Clone, Copy)]
pub enum Halt {
    /// The caller has made all its commits.
    Spent,
    Stopped { stop: Stop },
}

/// Takes one off the word that counts the caller's commits. Where that can't be the attempt is over.
pub fn count_down<M: TxMemory<Counts>>(
    mem: &M,
    pass: &mut M::Pass,
    log: &mut Log,
    count_at: u64,
) -> Result<(), Halt>
    requires of { M.of mem.now pass.old }
    requires active { (M.view pass.old).state ≡ Active }
    requires fresh { M.attempt pass.old ≡ starting_at (M.attempt pass.old).start }
    requires counts { count_at < CALLERS }
    requires words { CALLERS < length (M.made mem.now).opening }
    ensures of { M.of mem.now pass.new }
    ensures share { (M.view pass.new).share ≡ (M.view pass.old).share }
    ensures counted { OnOk result (HasCounted (length (M.made mem.now).opening) (M.view pass.new) (M.attempt pass.new)) }
    ensures over { OnErr result ((M.view pass.new).state ≡ Idle) }
{
    made_well(mem, pass);
    reads_one_state(mem, pass);
    let count = match mem.read(pass, count_at) {
        Ok(count) => count,
        Err(stop) => return Err(Halt::Stopped { stop }),
    };
    log.note(Access::Read {
        addr: count_at,
        value: count,
    });
    if count == 0 {
        mem.give_up(pass);
        return Err(Halt::Spent);
    }
    mem.write(pass, count_at, count - 1).unwrap();
    log.note(Access::Write {
        addr: count_at,
        value: count - 1,
    });
    Ok(())
}

/// Reads and writes words, so many times. It writes none of those that count.
pub fn change_words<M: TxMemory<Counts>>(
    mem: &M,
    pass: &mut M::Pass,
    log: &mut Log,
    dice: &mut Dice,
    steps: u64,
) -> Result<(), Stop>
    requires of { M.of mem.now pass.old }
    requires counted { HasCounted (length (M.made mem.now).opening) (M.view pass.old) (M.attempt pass.old) }
    requires words { CALLERS < length (M.made mem.now).opening }
    ensures of { M.of mem.now pass.new }
    ensures share { (M.view pass.new).share ≡ (M.view pass.old).share }
    ensures counted { OnOk result (HasCounted (length (M.made mem.now).opening) (M.view pass.new) (M.attempt pass.new)) }
    ensures over { OnErr result ((M.view pass.new).state ≡ Idle) }
{
    let len = mem.len();
    for _step in 0..steps {
        if dice.below(2) == 0 {
            read_word(mem, pass, log, dice.below(len))?;
        } else {
            let addr = CALLERS + dice.below(len - CALLERS);
            write_word(mem, pass, log, addr, dice.next());
        }
    }
    Ok(())
}

fn read_word<M: TxMemory<Counts>>(
    mem: &M,
    pass: &mut M::Pass,
    log: &mut Log,
    addr: u64,
) -> Result<(), Stop>
    requires of { M.of mem.now pass.old }
    requires counted { HasCounted (length (M.made mem.now).opening) (M.view pass.old) (M.attempt pass.old) }
    requires within { addr < length (M.made mem.now).opening }
    ensures of { M.of mem.now pass.new }
    ensures share { (M.view pass.new).share ≡ (M.view pass.old).share }
    ensures counted { OnOk result (HasCounted (length (M.made mem.now).opening) (M.view pass.new) (M.attempt pass.new)) }
    ensures over { OnErr result ((M.view pass.new).state ≡ Idle) }
{
    made_well(mem, pass);
    let value = mem.read(pass, addr)?;
    log.note(Access::Read { addr, value });
    Ok(())
}

fn write_word<M: TxMemory<Counts>>(
    mem: &M,
    pass: &mut M::Pass,
    log: &mut Log,
    addr: u64,
    value: u64,
)
    requires of { M.of mem.now pass.old }
    requires counted { HasCounted (length (M.made mem.now).opening) (M.view pass.old) (M.attempt pass.old) }
    requires behind { CALLERS ≤ addr }
    requires within { addr < length (M.made mem.now).opening }
    ensures of { M.of mem.now pass.new }
    ensures share { (M.view pass.new).share ≡ (M.view pass.old).share }
    ensures counted { HasCounted (length (M.made mem.now).opening) (M.view pass.new) (M.attempt pass.new) }
{
    made_well(mem, pass);
    if mem.write(pass, addr, value).is_ok() {
        log.note(Access::Write { addr, value });
    }
}

/// Reads words, so many times, and writes none.
pub fn look_at_words<M: TxMemory<Counts>>(
    mem: &M,
    pass: &mut M::Pass,
    log: &mut Log,
    dice: &mut Dice,
    steps: u64,
) -> Result<(), Stop>
    requires of { M.of mem.now pass.old }
    requires active { (M.view pass.old).state ≡ Active }
    requires unwritten { (M.attempt pass.old).writes ≡ [] }
    requires words { CALLERS < length (M.made mem.now).opening }
    ensures of { M.of mem.now pass.new }
    ensures share { (M.view pass.new).share ≡ (M.view pass.old).share }
    ensures active { OnOk result ((M.view pass.new).state ≡ Active) }
    ensures unwritten { OnOk result ((M.attempt pass.new).writes ≡ []) }
    ensures over { OnErr result ((M.view pass.new).state ≡ Idle) }
{
    made_well(mem, pass);
    let len = mem.len();
    for _step in 0..steps {
        let addr = dice.below(len);
        let value = mem.read(pass, addr)?;
        log.note(Access::Read { addr, value });
    }
    Ok(())
}
