//! A caller makes one attempt after another, and keeps what each of them read, wrote and came to.
ghost use Rattle.std.specs.Prelude.{◌≡◌, ◌<◌, true, false, [], length};
ghost use Rattle.tx_model.specs.declared.pass.PassState.TheVariants.{Active, Idle, Stamped};
ghost use Rattle.tx_model.specs.Attempt.{starting_at};
ghost use Rattle.ring_words.specs.Pass.{made_by, view_of, attempt_now};
ghost use Rattle.ring_stress.specs.declared.sense.TheConstants.{CALLERS};
ghost use Rattle.ring_stress.specs.Ready.{HasCounted, IsCountedBy};

use crate::attempt::{Halt, change_words, count_down, look_at_words};
use crate::dice::Dice;
use crate::log::{End, Log};
use crate::sense::{CALLERS, Counts};
use crate::tally::Tally;
use ring_memory::RingMemory;
use ring_words::{Ring, RingPass, Stamp, Turn};
use std::alloc::Global;
use std::sync::Wait;
use std::thread::yield_now;
use tx_model::count_stop;

/// How often an attempt asks for a stamp before it is given up.
const ASKS: u64 = 200;

/// The most attempts of a caller on one ring.
const ATTEMPTS: u64 = 4_000;

/// The most words that an attempt reads and writes, beside its count.
const STEPS: u64 = 64;

/// One of those who share a ring.
#[derive(Drop)]
pub struct Caller {
    pub log: Log,
    pub tally: Tally,
    number: u64,
    dice: Dice,
    /// There is no further commit for it.
    done: bool,
}

impl Caller {
    pub fn new(alloc: Global, number: u64, dice: Dice) -> Caller {
        Caller {
            log: Log::new(alloc),
            tally: Tally::NOTHING,
            number,
            dice,
            done: false,
        }
    }

    /// Makes attempts until no commit is left.
    pub fn work<R: Wait + Sync>(
        &mut self,
        rt: &R,
        mem: &RingMemory<Counts>,
        pass: &mut RingPass<Counts>,
    )
        requires of { IsCountedBy mem.now.ring pass.old }
        requires idle { (view_of pass.old).state ≡ Idle }
        requires words { CALLERS < length (made_by mem.now.ring).opening }
        ensures of { IsCountedBy mem.now.ring pass.new }
        ensures idle { (view_of pass.new).state ≡ Idle }
        ensures share { (view_of pass.new).share ≡ (view_of pass.old).share }
    {
        for _attempt in 0..ATTEMPTS {
            if self.done || self.log.torn {
                break;
            }
            self.attempt(rt, mem, pass);
        }
    }

    /// Makes an attempt.
    fn attempt<R: Wait + Sync>(
        &mut self,
        rt: &R,
        mem: &RingMemory<Counts>,
        pass: &mut RingPass<Counts>,
    )
        requires of { IsCountedBy mem.now.ring pass.old }
        requires idle { (view_of pass.old).state ≡ Idle }
        requires words { CALLERS < length (made_by mem.now.ring).opening }
        ensures of { IsCountedBy mem.now.ring pass.new }
        ensures idle { (view_of pass.new).state ≡ Idle }
        ensures share { (view_of pass.new).share ≡ (view_of pass.old).share }
    {
        self.tally.attempts = self.tally.attempts.wrapping_add(1);
        mem.ring.begin(pass);
        let end = if self.dice.below(4) == 0 {
            self.look(mem, pass)
        } else {
            self.change(rt, mem, pass)
        };
        self.log.close(end);
    }

    /// Reads words in the open attempt, and ends it.
    fn look(&mut self, mem: &RingMemory<Counts>, pass: &mut RingPass<Counts>) -> End
        requires of { IsCountedBy mem.now.ring pass.old }
        requires active { (view_of pass.old).state ≡ Active }
        requires unwritten { (attempt_now pass.old).writes ≡ [] }
        requires words { CALLERS < length (made_by mem.now.ring).opening }
        ensures of { IsCountedBy mem.now.ring pass.new }
        ensures idle { (view_of pass.new).state ≡ Idle }
        ensures share { (view_of pass.new).share ≡ (view_of pass.old).share }
    {
        let steps = self.dice.below(STEPS);
        match look_at_words(mem, pass, &mut self.log, &mut self.dice, steps) {
            Ok(()) => {
                self.tally.read_only = self.tally.read_only.wrapping_add(1);
                End::ReadOnly {
                    stamp: mem.ring.commit_read_only(pass).stamp,
                }
            }
            Err(stop) => {
                self.tally.count_read_stop(stop);
                End::Over
            }
        }
    }

    /// Reads and writes words in the open attempt, and ends it.
    fn change<R: Wait + Sync>(
        &mut self,
        rt: &R,
        mem: &RingMemory<Counts>,
        pass: &mut RingPass<Counts>,
    ) -> End
        requires of { IsCountedBy mem.now.ring pass.old }
        requires active { (view_of pass.old).state ≡ Active }
        requires fresh { attempt_now pass.old ≡ starting_at (attempt_now pass.old).start }
        requires words { CALLERS < length (made_by mem.now.ring).opening }
        ensures of { IsCountedBy mem.now.ring pass.new }
        ensures idle { (view_of pass.new).state ≡ Idle }
        ensures share { (view_of pass.new).share ≡ (view_of pass.old).share }
    {
        match count_down(mem, pass, &mut self.log, self.number % CALLERS) {
            Ok(()) => {}
            Err(Halt::Spent) => {
                self.done = true;
                return End::Over;
            }
            Err(Halt::Stopped { stop }) => {
                self.tally.count_read_stop(stop);
                return End::Over;
            }
        }
        let steps = self.dice.below(STEPS);
        if let Err(stop) = change_words(mem, pass, &mut self.log, &mut self.dice, steps) {
            self.tally.count_read_stop(stop);
            return End::Over;
        }
        if self.dice.below(16) == 0 {
            self.tally.given_up = self.tally.given_up.wrapping_add(1);
            mem.ring.give_up(pass);
            return End::Over;
        }
        self.commit(rt, &mem.ring, pass)
    }

    /// Makes the open attempt a commit, where that can be, and ends it.
    fn commit<R: Wait>(&mut self, rt: &R, ring: &Ring<Counts>, pass: &mut RingPass<Counts>) -> End
        requires of { IsCountedBy ring.now pass.old }
        requires counted { HasCounted (length (made_by ring.now).opening) (view_of pass.old) (attempt_now pass.old) }
        ensures of { IsCountedBy ring.now pass.new }
        ensures idle { (view_of pass.new).state ≡ Idle }
        ensures share { (view_of pass.new).share ≡ (view_of pass.old).share }
    {
        if !self.stamp(ring, pass) {
            return End::Over;
        }
        if self.dice.below(4) == 0 {
            yield_now();
        }
        End::Commit {
            stamp: self.finish(rt, ring, pass),
        }
    }

    /// Asks for a stamp, a limited number of times. Without one the attempt is over.
    fn stamp(&mut self, ring: &Ring<Counts>, pass: &mut RingPass<Counts>) -> bool
        requires of { IsCountedBy ring.now pass.old }
        requires counted { HasCounted (length (made_by ring.now).opening) (view_of pass.old) (attempt_now pass.old) }
        ensures of { IsCountedBy ring.now pass.new }
        ensures stamped { result ≡ true → (view_of pass.new).state ≡ Stamped }
        ensures over { result ≡ false → (view_of pass.new).state ≡ Idle }
        ensures share { (view_of pass.new).share ≡ (view_of pass.old).share }
    {
        let mut stops = 0;
        for _ask in 0..ASKS {
            match ring.try_stamp(pass) {
                Stamp::Stamped { stamp: _ } => return true,
                Stamp::Later { later } => {
                    self.tally.count_later(later);
                    stops = count_stop(stops);
                }
                Stamp::Stopped { stop } => {
                    self.tally.count_stamp_stop(stop);
                    return false;
                }
                Stamp::Worn { index: _ } => {
                    self.tally.worn = self.tally.worn.wrapping_add(1);
                    self.done = true;
                    return false;
                }
            }
        }
        self.tally.given_up = self.tally.given_up.wrapping_add(1);
        ring.give_up(pass);
        false
    }

    /// Takes turns until the commit is complete, and gives its number.
    fn finish<R: Wait>(&mut self, rt: &R, ring: &Ring<Counts>, pass: &mut RingPass<Counts>) -> u64
        requires of { IsCountedBy ring.now pass.old }
        requires stamped { (view_of pass.old).state ≡ Stamped }
        ensures of { IsCountedBy ring.now pass.new }
        ensures idle { (view_of pass.new).state ≡ Idle }
        ensures share { (view_of pass.new).share ≡ (view_of pass.old).share }
    {
        let mut stops = 0;
        for _ in rt.forever() {
            match ring.turn(pass) {
                Turn::Completed { receipt } => {
                    self.tally.commits = self.tally.commits.wrapping_add(1);
                    return receipt.stamp;
                }
                Turn::Later { later } => {
                    self.tally.count_later(later);
                    stops = count_stop(stops);
                }
            }
        }
        unreachable!()
    }
}
