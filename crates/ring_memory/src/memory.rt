//! A memory whose calls are the ring's of the same names.
use ring_words::{Ring, RingPass};
use std::sync::Wait;
use tx_model::{CommitError, Memory, PassState, Receipt, Sense, Stop, TxMemory, WriteFull};

/// The ring as a transaction memory. The ring is put in here once it is made, and taken out again to be closed.
pub struct RingMemory<S: Sense> {
    pub ring: Ring<S>,
}

impl<S: Sense> TxMemory<S> for RingMemory<S> {
    ghost use Rattle.ring_words.specs.Pass.{IsOf, made_by, shape_by, view_of, attempt_now, shows_by};
    ghost use Rattle.ring_memory.specs.Shown.{shown_stays, shown_later};

    type Pass = RingPass<S>;

    ghost made = { λ mem. made_by mem.ring };

    ghost of = { λ mem pass. IsOf S.allows S.good S.budget mem.ring pass };

    ghost view = { view_of };

    ghost attempt = { attempt_now };

    ghost shows = { λ mem. shows_by mem.ring };

    fn sense(&self) -> &S {
        self.ring.sense()
    }

    fn len(&self) -> u64 {
        self.ring.len()
    }

    fn life(&self) -> u64 {
        self.ring.life()
    }

    fn state(&self, pass: &RingPass<S>) -> PassState {
        self.ring.state(pass)
    }

    fn room(&self, pass: &RingPass<S>) -> u64 {
        self.ring.room(pass)
    }

    fn begin<R: Wait + Sync>(&self, _rt: &R, pass: &mut RingPass<S>) {
        self.ring.begin(pass);
    }

    fn read(&self, pass: &mut RingPass<S>, addr: u64) -> Result<u64, Stop> {
        self.ring.read(pass, addr)
    }

    fn write(&self, pass: &mut RingPass<S>, addr: u64, value: u64) -> Result<(), WriteFull> {
        self.ring.write(pass, addr, value)
    }

    fn give_up(&self, pass: &mut RingPass<S>) {
        self.ring.give_up(pass);
    }

    fn commit<R: Wait + Sync>(
        &self,
        rt: &R,
        pass: &mut RingPass<S>,
    ) -> Result<Receipt, CommitError> {
        self.ring.commit(rt, pass)
    }

    fn split(&self, pass: &mut RingPass<S>) -> Result<RingPass<S>, Memory> {
        self.ring.split(pass)
    }

    fn join(&self, pass: &mut RingPass<S>, other: RingPass<S>) {
        self.ring.join(pass, other);
    }

    ghost made_well = { λ mem pass of. of.is_made };

    ghost stays_shown = { λ mem. shown_stays (shape_by mem.ring) };

    ghost has_later = { λ mem. shown_later (shape_by mem.ring) };

    ghost knows = { λ mem pass of. of.is_pass };
}
