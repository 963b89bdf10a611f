//! Attempts of a body, one after another until one is committed or refused.
ghost use Rattle.std.specs.Prelude.{◌≡◌, ◌+◌, ◌-◌, ◌^◌, min, IfOk, IfErr, OnErr};
ghost use Rattle.tx_model.specs.declared.pass.PassState.TheVariants.{Idle};
ghost use Rattle.tx_model.specs.Tries.{Done, NotDone, OnceNotDone};

use crate::body::{Body, BodyStep};
use crate::laws::pass_knows;
use crate::memory::TxMemory;
use crate::pass::{CommitError, Receipt};
use crate::sense::Sense;
use std::fmt::Display;
use std::sync::Wait;
use std::thread::yield_now;
use thiserror::Error;

/// Why nothing was committed.
#[derive(Clone, Copy, Debug, PartialEq, Eq, Error)]
#[error_bound(T: Display)]
pub enum BodyStop<T> {
    /// The memory has had its last commit, number `index`.
    #[error("the memory has had its last commit, number {index}")]
    Worn { index: u64 },
    /// The body refused in the last attempt.
    #[error("{refusal}")]
    Refused { refusal: T },
}

/// How one try ended that committed nothing.
enum OnceStop<T> {
    Again,
    Over { stop: BodyStop<T> },
}

/// So many stops in a row are followed by another try at once.
const STOPS_AT_ONCE: u64 = 4;

/// One more stop, after so many in a row. The first few are followed by another try at once, and after more of them other
/// threads get to run first. Answers how many there are.
pub fn count_stop(stops: u64) -> u64
    ensures { result ≡ min (stops + 1) (2 ^ 64 - 1) }
{
    let stops = stops.saturating_add(1);
    if stops > STOPS_AT_ONCE {
        yield_now();
    }
    stops
}

/// Runs the body in one attempt after another until one is committed or refused.
pub fn atomically<S: Sense, M: TxMemory<S>, B: Body<S, M>, R: Wait + Sync>(
    rt: &R,
    mem: &M,
    pass: &mut M::Pass,
    body: &mut B,
) -> Result<Receipt, BodyStop<B::Refusal>>
    requires of { M.of mem.now pass.old }
    requires idle { (M.view pass.old).state ≡ Idle }
    requires needs { B.needs (M.made mem.now).sense (M.made mem.now).opening (B.task body.old) (M.view pass.old).owned }
    ensures of { M.of mem.now pass.new }
    ensures task { B.task body.new ≡ B.task body.old }
    ensures done { IfOk result (λ receipt. Done (B.did (M.made mem.now).sense (M.made mem.now).opening body.new) (M.made mem.now).opening (M.view pass.old)
        (M.view pass.new) receipt) }
    ensures not_done { IfErr result
        (λ stop. NotDone (B.did (M.made mem.now).sense (M.made mem.now).opening body.new) (M.made mem.now).opening (M.made mem.now).life (M.view pass.old)
        (M.view pass.new) stop) }
{
    let mut stops = 0u64;
    for _ in rt.forever() {
        match try_once(rt, mem, pass, body) {
            Ok(receipt) => return Ok(receipt),
            Err(OnceStop::Over { stop }) => return Err(stop),
            Err(OnceStop::Again) => {}
        }
        stops = count_stop(stops);
    }
    unreachable!()
}

/// One attempt: begins, runs the body and commits.
fn try_once<S: Sense, M: TxMemory<S>, B: Body<S, M>, R: Wait + Sync>(
    rt: &R,
    mem: &M,
    pass: &mut M::Pass,
    body: &mut B,
) -> Result<Receipt, OnceStop<B::Refusal>>
    requires of { M.of mem.now pass.old }
    requires idle { (M.view pass.old).state ≡ Idle }
    requires needs { B.needs (M.made mem.now).sense (M.made mem.now).opening (B.task body.old) (M.view pass.old).owned }
    ensures of { M.of mem.now pass.new }
    ensures task { B.task body.new ≡ B.task body.old }
    ensures done { IfOk result (λ receipt. Done (B.did (M.made mem.now).sense (M.made mem.now).opening body.new) (M.made mem.now).opening (M.view pass.old)
        (M.view pass.new) receipt) }
    ensures not_done { IfErr result
        (λ stop. OnceNotDone (B.did (M.made mem.now).sense (M.made mem.now).opening body.new) (M.made mem.now).opening (M.made mem.now).life (M.view pass.old)
        (M.view pass.new) stop) }
{
    mem.begin(rt, pass);
    match body.attempt(mem, pass) {
        Ok(()) => match mem.commit(rt, pass) {
            Ok(receipt) => Ok(receipt),
            Err(CommitError::Stopped { stop: _ }) => Err(OnceStop::Again),
            Err(CommitError::Worn { index }) => Err(OnceStop::Over {
                stop: BodyStop::Worn { index },
            }),
        },
        Err(BodyStep::Stopped { stop: _ }) => Err(OnceStop::Again),
        Err(BodyStep::Refused { refusal }) => {
            pass_knows(mem, pass);
            mem.give_up(pass);
            Err(OnceStop::Over {
                stop: BodyStop::Refused { refusal },
            })
        }
    }
}
