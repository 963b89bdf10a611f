//! A memory that counts what it is asked for, and hands each call on to another one.
ghost use Rattle.std.specs.Prelude.{◌≡◌};

use std::sync::Wait;
use std::sync::atomic::{AtomicU64, Ordering};
use tx_heap::MailSense;
use tx_model::{CommitError, Memory, PassState, Receipt, Stop, TxMemory, WriteFull};

/// How many reads and writes there were, and how many of the reads were inside regions.
#[derive(Clone, Copy)]
pub struct Counts {
    pub reads: u64,
    pub writes: u64,
    pub in_regions: u64,
}

/// A memory, and what it was asked for so far.
pub struct Counting<M> {
    pub mem: M,
    reads: AtomicU64,
    writes: AtomicU64,
    in_regions: AtomicU64,
}

impl<M> Counting<M> {
    pub fn new(mem: M) -> Self
        ensures { result.mem ≡ mem }
    {
        Counting {
            mem,
            reads: AtomicU64::new(0),
            writes: AtomicU64::new(0),
            in_regions: AtomicU64::new(0),
        }
    }

    pub fn counts(&self) -> Counts {
        Counts {
            reads: self.reads.load(Ordering::SeqCst),
            writes: self.writes.load(Ordering::SeqCst),
            in_regions: self.in_regions.load(Ordering::SeqCst),
        }
    }

    /// The memory that the calls were handed on to.
    pub fn into_inner(self) -> M
        ensures { result ≡ self.mem }
    {
        let Counting {
            mem,
            reads: _reads,
            writes: _writes,
            in_regions: _in_regions,
        } = self;
        mem
    }
}

impl<M: TxMemory<MailSense>> TxMemory<MailSense> for Counting<M> {
    type Pass = M::Pass;

    ghost made = { λ counting. M.made counting.mem };

    ghost of = { λ counting pass. M.of counting.mem pass };

    ghost view = { M.view };

    ghost attempt = { M.attempt };

    ghost shows = { λ counting. M.shows counting.mem };

    fn sense(&self) -> &MailSense {
        self.mem.sense()
    }

    fn len(&self) -> u64 {
        self.mem.len()
    }

    fn life(&self) -> u64 {
        self.mem.life()
    }

    fn state(&self, pass: &M::Pass) -> PassState {
        self.mem.state(pass)
    }

    fn room(&self, pass: &M::Pass) -> u64 {
        self.mem.room(pass)
    }

    fn begin<R: Wait + Sync>(&self, rt: &R, pass: &mut M::Pass) {
        self.mem.begin(rt, pass);
    }

    fn read(&self, pass: &mut M::Pass, addr: u64) -> Result<u64, Stop> {
        self.reads.fetch_add(1, Ordering::SeqCst);
        if addr >= self.mem.sense().plan().base(0) {
            self.in_regions.fetch_add(1, Ordering::SeqCst);
        }
        self.mem.read(pass, addr)
    }

    fn write(&self, pass: &mut M::Pass, addr: u64, value: u64) -> Result<(), WriteFull> {
        self.writes.fetch_add(1, Ordering::SeqCst);
        self.mem.write(pass, addr, value)
    }

    fn give_up(&self, pass: &mut M::Pass) {
        self.mem.give_up(pass);
    }

    fn commit<R: Wait + Sync>(&self, rt: &R, pass: &mut M::Pass) -> Result<Receipt, CommitError> {
        self.mem.commit(rt, pass)
    }

    fn split(&self, pass: &mut M::Pass) -> Result<M::Pass, Memory> {
        self.mem.split(pass)
    }

    fn join(&self, pass: &mut M::Pass, other: M::Pass) {
        self.mem.join(pass, other);
    }

    ghost made_well = { λ counting pass of. M.made_well counting.mem pass of };

    ghost stays_shown = { λ counting. M.stays_shown counting.mem };

    ghost has_later = { λ counting. M.has_later counting.mem };

    ghost knows = { λ counting pass of. M.knows counting.mem pass of };
}
