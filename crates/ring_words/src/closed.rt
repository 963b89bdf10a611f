//! A ring that no thread shares any more.
ghost use Rattle.std.specs.Prelude.{◌≡◌, ◌<◌, length, slice_index};
ghost use Rattle.ring_words.specs.Closing.{last_words};
ghost use Rattle.ring_words.specs.Sealings.{sealing_commits};

use crate::table::RingSeat;
use atomic_table::Closed as Table;
use ring_core::Shape;
use std::alloc::Global;
use std::marker::Model;
use std::snapshot::Snapshot;

/// What a ring leaves: the words of the last state of its one history. It is made by `Ring::close` alone.
pub struct Closed<S> {
    pub(crate) table: Table<u8, Global>,
    pub(crate) sense: S,
    pub(crate) shape: Shape,
    /// How many commits seal a region.
    pub(crate) seals: u64,
    /// The last seat.
    pub(crate) seat: Snapshot<RingSeat<S>>,
}

impl<S> Model for Closed<S> {
    ghost use Rattle.std.specs.Prelude.{◌≡◌};
    ghost use Rattle.std.specs.Mem.Slots.{slots_len, slots_items, IsFull};
    ghost use Rattle.ring_words.specs.Layout.{table_size};
    ghost use Rattle.ring_words.specs.Closing.{Ending, ending_known, IsClosing};

    ghost Value = { Ending S };

    ghost view = { λ c. ending_known c.sense c.seat.value.me.0 };

    ghost invariant = { λ c. IsFull c.table.words × (slots_len c.table.words ≡ table_size c.shape) × (slots_len c.table.slots ≡ 0) ×
        IsClosing c.sense c.shape (slots_items c.table.words) c.seals (ending_known c.sense c.seat.value.me.0) };
}

impl<S: Drop> Drop for Closed<S> {
    fn drop(self) {
        let Self {
            table,
            sense: _,
            shape: _,
            seals: _,
            seat: _,
        } = self;
        table.free();
    }
}

impl<S> Closed<S> {
    pub fn sense(&self) -> &S
        ensures { result.now ≡ self.now.made.sense }
    {
        &self.sense
    }

    /// The number of words.
    pub fn len(&self) -> u64
        ensures { result ≡ length self.now.made.opening }
    {
        self.shape.heap
    }

    /// How many commits there were.
    pub fn commits(&self) -> u64
        ensures { result ≡ length self.now.history }
    {
        self.table.word(0)
    }

    /// How many of them sealed a region.
    pub fn seals(&self) -> u64
        ensures { result ≡ sealing_commits self.now.history }
    {
        self.seals
    }

    /// A word of the last state. In a region that is still sealed it is the owner's.
    pub fn word(&self, addr: u64) -> u64
        requires { addr < length self.now.made.opening }
        ensures { result ≡ slice_index (last_words self.now) addr }
    {
        let before = 1 + self.shape.ring + self.shape.ring * self.shape.sig_words;
        self.table.word((before + addr) as usize)
    }
}
