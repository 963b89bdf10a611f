//! The calls of an attempt, and what a pass and its ring say of themselves.
ghost use Rattle.std.specs.Prelude.{◌≡◌, ◌↔◌, ◌+◌, ◌-◌, ◌*◌, ◌<◌, ◌≤◌, ◌∷◌, [], false, length, IfOk, IfErr, OnOk, OnErr, IsErr};
ghost use Rattle.tx_model.specs.declared.pass.PassState.TheVariants as state;
ghost use Rattle.tx_model.specs.Words.{addresses};
ghost use Rattle.tx_model.specs.declared.pass.TheConstants.{MAX_WRITES};
ghost use Rattle.tx_model.specs.Attempt.{MayRead, MayWrite};
ghost use Rattle.tx_model.specs.Calls.{Began, Read, Ended, OnlyRead, IsFull, with_write};
ghost use Rattle.ring_words.specs.Pass.{made_by, shape_by, shows_by, IsOf, view_of, attempt_now, steps_made};

use crate::pass::RingPass;
use crate::ring::Ring;
use ring_core::Progress;
use ring_core::laws::move_keeps;
use ring_worlds::laws::{callers_change, moves_keep};
use tx_model::{PassState, Receipt, Sense, Stop, WriteFull};

impl<S: Sense> Ring<S> {
    pub fn sense(&self) -> &S
        ensures { result.now ≡ (made_by self.now).sense }
    {
        &self.sense
    }

    /// The number of words.
    pub fn len(&self) -> u64
        ensures { result ≡ length (made_by self.now).opening }
    {
        self.shape.heap
    }

    /// How many commits the memory has at most.
    pub fn life(&self) -> u64
        ensures { result ≡ (made_by self.now).life }
    {
        self.shape.life
    }

    pub fn state(&self, pass: &RingPass<S>) -> PassState
        ensures { result ≡ (view_of pass.now).state }
    {
        pass.local.state()
    }

    /// How many more addresses the attempt may write.
    pub fn room(&self, pass: &RingPass<S>) -> u64
        ensures { result ≡ MAX_WRITES - length (attempt_now pass.now).writes }
    {
        pass.local.room()
    }

    /// Begins an attempt, which reads from a state that is no older than what the pass knows to be complete.
    pub fn begin(&self, pass: &mut RingPass<S>)
        requires of { IsOf S.allows S.good S.budget self.now pass.old }
        requires idle { (view_of pass.old).state ≡ state.Idle }
        ensures of { IsOf S.allows S.good S.budget self.now pass.new }
        ensures began { Began (view_of pass.old) (view_of pass.new) (attempt_now pass.new) }
        ensures few { steps_made pass.new ≤ steps_made pass.old + ((shape_by self.now).ring + 1) }
    {
        move_keeps();
        callers_change();
        self.begin_attempt(pass);
    }

    /// The value that the attempt wrote there, else the value in the one state that all its reads come from.
    /// After a stop the attempt is over.
    pub fn read(&self, pass: &mut RingPass<S>, addr: u64) -> Result<u64, Stop>
        requires of { IsOf S.allows S.good S.budget self.now pass.old }
        requires active { (view_of pass.old).state ≡ state.Active }
        requires within { addr < length (made_by self.now).opening }
        requires rule { MayRead (made_by self.now).regions (attempt_now pass.old) addr }
        ensures of { IsOf S.allows S.good S.budget self.now pass.new }
        ensures read { IfOk result (λ value. Read (made_by self.now).opening (view_of pass.old) (view_of pass.new) (attempt_now pass.old)
            (attempt_now pass.new) addr value) }
        ensures ended { OnErr result (Ended (view_of pass.old) (view_of pass.new) (attempt_now pass.old)) }
        ensures cause_stop { IfErr result (λ stop. shows_by self.now (view_of pass.new).history (attempt_now pass.old).start
            (addr ∷ addresses (attempt_now pass.old).reads) stop) }
        ensures few { steps_made pass.new ≤ steps_made pass.old + (2 + (shape_by self.now).ring * ((shape_by self.now).sig_words + 2)) }
    {
        move_keeps();
        moves_keep();
        if let Some(written) = pass.local.writes().value_of(addr) {
            return Ok(written);
        }
        match self.read_word(pass, addr) {
            Progress::Value { value } => Ok(value),
            Progress::Stopped { stop } => Err(stop),
            _ => unreachable!(),
        }
    }

    /// Refuses exactly where the address isn't written yet and there is no room, and changes nothing then.
    pub fn write(&self, pass: &mut RingPass<S>, addr: u64, value: u64) -> Result<(), WriteFull>
        requires of { IsOf S.allows S.good S.budget self.now pass.old }
        requires active { (view_of pass.old).state ≡ state.Active }
        requires within { addr < length (made_by self.now).opening }
        requires rule { MayWrite (made_by self.now).regions (attempt_now pass.old) addr value }
        ensures of { IsOf S.allows S.good S.budget self.now pass.new }
        ensures same { view_of pass.new ≡ view_of pass.old }
        ensures written { OnOk result (attempt_now pass.new ≡ with_write (attempt_now pass.old) addr value) }
        ensures unchanged { OnErr result (attempt_now pass.new ≡ attempt_now pass.old) }
        ensures exactly_full { IsErr result ↔ IsFull (attempt_now pass.old) addr }
        ensures few { steps_made pass.new ≡ steps_made pass.old }
    {
        move_keeps();
        moves_keep();
        pass.local.put_write(addr, value)
    }

    /// Ends the attempt. The pass has no further commit.
    pub fn give_up(&self, pass: &mut RingPass<S>)
        requires of { IsOf S.allows S.good S.budget self.now pass.old }
        requires active { (view_of pass.old).state ≡ state.Active }
        ensures of { IsOf S.allows S.good S.budget self.now pass.new }
        ensures ended { Ended (view_of pass.old) (view_of pass.new) (attempt_now pass.old) }
        ensures few { steps_made pass.new ≡ steps_made pass.old }
    {
        callers_change();
        pass.local.give_up();
    }

    /// Ends an attempt that wrote nothing. It read from the state that the receipt names.
    pub fn commit_read_only(&self, pass: &mut RingPass<S>) -> Receipt
        requires of { IsOf S.allows S.good S.budget self.now pass.old }
        requires active { (view_of pass.old).state ≡ state.Active }
        requires nothing { (attempt_now pass.old).writes ≡ [] }
        ensures of { IsOf S.allows S.good S.budget self.now pass.new }
        ensures idle { (view_of pass.new).state ≡ state.Idle }
        ensures only_read { OnlyRead (made_by self.now).opening (view_of pass.old) (view_of pass.new) (attempt_now pass.old) result.stamp }
        ensures exactly { result.stamp ≡ (attempt_now pass.old).start }
        ensures wrote { result.wrote ≡ false }
        ensures few { steps_made pass.new ≡ steps_made pass.old }
    {
        callers_change();
        let stamp = pass.local.finish_read_only();
        Receipt {
            stamp,
            wrote: false,
        }
    }
}
