//! Words that an attempt reads.
ghost use Rattle.std.specs.Prelude.{◌≡◌, ◌<◌, [], length, IfOk, OnOk, IfErr, OnErr};
ghost use Rattle.tx_model.specs.declared.pass.PassState.TheVariants.{Active, Idle};
ghost use Rattle.tx_model.specs.Attempt.{MayRead};
ghost use Rattle.tx_model.specs.Calls.{GoesOn, Ended, IsLater};
ghost use Rattle.tx_model.specs.Opacity.{IsShown};
ghost use Rattle.tx_uses.specs.Raised.{HadValue};
ghost use Rattle.tx_uses.specs.Reads.{HadBoth, with_both};

use crate::countdown::Countdown;
use std::sync::Wait;
use tx_model::laws::{made_well, reads_one_state, state_laws};
use tx_model::{Sense, Stop, TxMemory};

/// Reads two words, which were there at one time. The attempt has written nothing yet.
/// A word of a region is read where the attempt has read the region's gate before.
pub fn read_two<S: Sense, M: TxMemory<S>>(
    mem: &M,
    pass: &mut M::Pass,
    first: u64,
    second: u64,
) -> Result<(u64, u64), Stop>
    requires of { M.of mem.now pass.old }
    requires active { (M.view pass.old).state ≡ Active }
    requires unwritten { (M.attempt pass.old).writes ≡ [] }
    requires first_within { first < length (M.made mem.now).opening }
    requires second_within { second < length (M.made mem.now).opening }
    requires first_rule { MayRead (M.made mem.now).regions (M.attempt pass.old) first }
    requires second_rule { MayRead (M.made mem.now).regions (M.attempt pass.old) second }
    ensures of { M.of mem.now pass.new }
    ensures both { IfOk result (λ values. HadBoth (M.made mem.now).opening (M.view pass.new).history
        (M.attempt pass.old).start first values.0 second values.1) }
    ensures goes_on { OnOk result (GoesOn (M.view pass.old) (M.view pass.new) (M.attempt pass.old) (M.attempt pass.new)) }
    ensures reads { IfOk result (λ values. M.attempt pass.new ≡ with_both (M.attempt pass.old) (M.attempt pass.new).start first values.0 second values.1) }
    ensures ended { OnErr result (Ended (M.view pass.old) (M.view pass.new) (M.attempt pass.old)) }
    ensures cause { IfErr result (IsShown (M.shows mem.now) (M.made mem.now).opening (M.view pass.new).history (M.attempt pass.old).start) }
{
    reads_one_state(mem, pass);
    let a = mem.read(pass, first)?;
    let b = mem.read(pass, second)?;
    Ok((a, b))
}

/// Reads one word, in an attempt of its own.
pub fn read_now<M: TxMemory<Countdown>, R: Wait + Sync>(
    rt: &R,
    mem: &M,
    pass: &mut M::Pass,
    word: u64,
) -> Result<u64, Stop>
    requires of { M.of mem.now pass.old }
    requires idle { (M.view pass.old).state ≡ Idle }
    requires within { word < length (M.made mem.now).opening }
    ensures of { M.of mem.now pass.new }
    ensures idle { (M.view pass.new).state ≡ Idle }
    ensures later { IsLater (M.view pass.old) (M.view pass.new) }
    ensures had { IfOk result (HadValue (M.made mem.now).opening (M.view pass.old) (M.view pass.new) word) }
    ensures cause { IfErr result (IsShown (M.shows mem.now) (M.made mem.now).opening (M.view pass.new).history (M.view pass.old).front) }
{
    made_well(mem, pass);
    state_laws();
    mem.begin(rt, pass);
    reads_one_state(mem, pass);
    let value = mem.read(pass, word)?;
    mem.give_up(pass);
    Ok(value)
}
