//! The names of acts.
ghost use Rattle.std.specs.Prelude.{◌≡◌, ◌↔◌, ℕ, List, map, IsTrue, Some};
ghost use Rattle.ring_runs.specs.declared.event.Act.{Act};
ghost use Rattle.ring_script.specs.Grammar.{AsksFor, may_run};
ghost use Rattle.ring_script.specs.Names.{text_of, act_named, without, steps_of};
ghost use Rattle.ring_script.specs.declared.name.Name.{Name};

use crate::numbers::{numbers_of, one_in, word_in};
use ring_runs::Act;

/// The name of an act.
#[derive(Clone, Copy)]
pub enum Name {
    Begin,
    Read,
    Write,
    Stamp,
    Turn,
    Done,
    GiveUp,
    Seal,
    Publish,
    Load,
    Store,
    Step,
    Run,
}

/// The most steps of one event.
const MOST_STEPS: u64 = 1_000_000;

/// What the tokens behind the caller's number ask for.
pub fn act_of(tokens: &[&[u8]]) -> Option<Act>
    ensures { (act : Act) → (result ≡ Some act) ↔ AsksFor (map (λ t. t.now) tokens.now) act }
{
    if tokens.is_empty() {
        return None;
    }
    let name = name_of(tokens[0])?;
    let numbers = numbers_of(&tokens[1..])?;
    act_named(name, numbers.as_slice())
}

/// The requests that may be run on their line.
pub fn may_run(act: Act) -> bool
    ensures { result ≡ may_run act }
{
    match act {
        Act::Begin
        | Act::Read { .. }
        | Act::Stamp
        | Act::Turn
        | Act::Load { .. }
        | Act::Store { .. } => true,
        Act::Write { .. } | Act::Done | Act::GiveUp => false,
        Act::Seal { .. } | Act::Publish { .. } => false,
        Act::Step { .. } | Act::Run => false,
    }
}

fn name_of(token: &[u8]) -> Option<Name>
    ensures { (name : Name) → (result ≡ Some name) ↔ (token.now ≡ text_of name) }
{
    if token == b"begin".as_slice() {
        return Some(Name::Begin);
    }
    if token == b"read".as_slice() {
        return Some(Name::Read);
    }
    if token == b"write".as_slice() {
        return Some(Name::Write);
    }
    if token == b"stamp".as_slice() {
        return Some(Name::Stamp);
    }
    if token == b"turn".as_slice() {
        return Some(Name::Turn);
    }
    if token == b"done".as_slice() {
        return Some(Name::Done);
    }
    if token == b"give-up".as_slice() {
        return Some(Name::GiveUp);
    }
    if token == b"seal".as_slice() {
        return Some(Name::Seal);
    }
    if token == b"publish".as_slice() {
        return Some(Name::Publish);
    }
    if token == b"load".as_slice() {
        return Some(Name::Load);
    }
    if token == b"store".as_slice() {
        return Some(Name::Store);
    }
    if token == b"step".as_slice() {
        return Some(Name::Step);
    }
    if token == b"run".as_slice() {
        return Some(Name::Run);
    }
    None
}

/// The act of this name with these numbers.
fn act_named(name: Name, numbers: &[u64]) -> Option<Act>
    ensures { result ≡ act_named name numbers.now }
{
    match name {
        Name::Begin => without(numbers, Act::Begin),
        Name::Read => {
            let addr = one_in(numbers)?;
            Some(Act::Read { addr })
        }
        Name::Write => {
            let word = word_in(numbers)?;
            Some(Act::Write {
                addr: word.addr,
                value: word.value,
            })
        }
        Name::Stamp => without(numbers, Act::Stamp),
        Name::Turn => without(numbers, Act::Turn),
        Name::Done => without(numbers, Act::Done),
        Name::GiveUp => without(numbers, Act::GiveUp),
        Name::Seal => {
            let region = one_in(numbers)?;
            Some(Act::Seal { region })
        }
        Name::Publish => {
            let region = one_in(numbers)?;
            Some(Act::Publish { region })
        }
        Name::Load => {
            let addr = one_in(numbers)?;
            Some(Act::Load { addr })
        }
        Name::Store => {
            let word = word_in(numbers)?;
            Some(Act::Store {
                addr: word.addr,
                value: word.value,
            })
        }
        Name::Step => {
            let count = one_in(numbers)?;
            steps_of(count)
        }
        Name::Run => without(numbers, Act::Run),
    }
}

/// An act that has no numbers.
fn without(numbers: &[u64], act: Act) -> Option<Act>
    ensures { result ≡ without numbers.now act }
{
    if numbers.is_empty() { Some(act) } else { None }
}

/// So many steps, at least one.
fn steps_of(count: u64) -> Option<Act>
    ensures { result ≡ steps_of count }
{
    if 1 <= count && count <= MOST_STEPS {
        Some(Act::Step { count })
    } else {
        None
    }
}
