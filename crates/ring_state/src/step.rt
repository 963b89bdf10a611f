//! The atomic steps, one function each.
ghost use Rattle.std.specs.Prelude.{◌≡◌, ◌<◌, length, IfOk, OnErr};
ghost use Rattle.ring_core.specs.declared.action.Action.TheVariants.{LoadIndex, LoadTag, LoadSig, LoadHeap, SwapIndex, StoreTag, StoreSig, StoreHeap};
ghost use Rattle.ring_core.specs.Words.{CanAbsorb};
ghost use Rattle.ring_worlds.specs.World.{commit_of};
ghost use Rattle.ring_worlds.specs.Calls.{IsAsking};
ghost use Rattle.ring_state.specs.Plain.{process_of};
ghost use Rattle.ring_state.specs.Kept.{world_of, member_at, HaveShape, IsKept, IsReady, IsLoading, HasTaken, HasStepped, IsSame};
ghost use Rattle.ring_worlds.specs.Calls.{process_at};

use crate::entry::Entry;
use crate::lists::make_room;
use crate::plain::Plain;
use ring_core::{Action, Progress};
use ring_worlds::laws::next_step;
use tx_model::Memory;

impl Plain {
    /// The next step of the caller.
    pub fn step(&mut self, who: u64) -> Result<Progress, Memory>
        requires kept { IsKept self.old }
        requires asks { IsAsking (world_of self.old) who }
        ensures stepped { IfOk result (λ progress. HasStepped (world_of self.old) who progress self.new) }
        ensures same { OnErr result (IsSame (world_of self.old) self.new) }
    {
        next_step();
        let member = &self.members[who as usize];
        let action = member.next();
        self.make(who, action)
    }

    /// Makes this step of the caller.
    fn make(&mut self, who: u64, action: Action) -> Result<Progress, Memory>
        requires { IsReady self.old who action }
        ensures stepped { IfOk result (λ progress. HasStepped (world_of self.old) who progress self.new) }
        ensures same { OnErr result (IsSame (world_of self.old) self.new) }
    {
        match action {
            Action::LoadIndex => self.load_index(who),
            Action::LoadTag { slot } => self.load_tag(who, slot),
            Action::LoadSig { slot, word } => self.load_sig(who, slot, word),
            Action::LoadHeap { addr } => self.load_heap(who, addr),
            Action::SwapIndex { from } => self.swap_index(who, from),
            Action::StoreTag { slot, tag } => self.store_tag(who, slot, tag),
            Action::StoreSig { slot, word, value } => self.store_sig(who, slot, word, value),
            Action::StoreHeap { addr, value } => self.store_heap(who, addr, value),
            Action::Idle => unreachable!(),
        }
    }

    fn load_index(&mut self, who: u64) -> Result<Progress, Memory>
        requires { IsReady self.old who LoadIndex }
        ensures stepped { IfOk result (λ progress. HasStepped (world_of self.old) who progress self.new) }
        ensures same { OnErr result (IsSame (world_of self.old) self.new) }
    {
        let index = self.index;
        self.load(who, index)
    }

    fn load_tag(&mut self, who: u64, slot: u64) -> Result<Progress, Memory>
        requires { IsReady self.old who (LoadTag slot) }
        ensures stepped { IfOk result (λ progress. HasStepped (world_of self.old) who progress self.new) }
        ensures same { OnErr result (IsSame (world_of self.old) self.new) }
    {
        let tag = self.tags[slot as usize];
        self.load(who, tag)
    }

    fn load_sig(&mut self, who: u64, slot: u64, word: u64) -> Result<Progress, Memory>
        requires { IsReady self.old who (LoadSig slot word) }
        ensures stepped { IfOk result (λ progress. HasStepped (world_of self.old) who progress self.new) }
        ensures same { OnErr result (IsSame (world_of self.old) self.new) }
    {
        let value = self.sigs[(slot * self.shape.sig_words + word) as usize];
        self.load(who, value)
    }

    fn load_heap(&mut self, who: u64, addr: u64) -> Result<Progress, Memory>
        requires { IsReady self.old who (LoadHeap addr) }
        ensures stepped { IfOk result (λ progress. HasStepped (world_of self.old) who progress self.new) }
        ensures same { OnErr result (IsSame (world_of self.old) self.new) }
    {
        let value = self.heap[addr as usize];
        self.load(who, value)
    }

    /// The caller's step finds this word, and all words stay.
    fn load(&mut self, who: u64, word: u64) -> Result<Progress, Memory>
        requires { IsLoading self.old who word }
        ensures stepped { IfOk result (λ progress. HasStepped (world_of self.old) who progress self.new) }
        ensures same { OnErr result (IsSame (world_of self.old) self.new) }
    {
        self.take_in(who, word)
    }

    /// A compare-and-swap of the index. Where it succeeds, the caller's commit is the last of the history.
    fn swap_index(&mut self, who: u64, from: u64) -> Result<Progress, Memory>
        requires { IsReady self.old who (SwapIndex from) }
        ensures stepped { IfOk result (λ progress. HasStepped (world_of self.old) who progress self.new) }
        ensures same { OnErr result (IsSame (world_of self.old) self.new) }
    {
        let index = self.index;
        if index != from {
            return self.load(who, index);
        }
        make_room(&mut self.history)?;
        let entry = self.entry_of(who)?;
        let progress = self.take_in(who, index)?;
        self.history.push_reserved(entry);
        self.index = index + 1;
        Ok(progress)
    }

    fn store_tag(&mut self, who: u64, slot: u64, tag: u64) -> Result<Progress, Memory>
        requires { IsReady self.old who (StoreTag slot tag) }
        ensures stepped { IfOk result (λ progress. HasStepped (world_of self.old) who progress self.new) }
        ensures same { OnErr result (IsSame (world_of self.old) self.new) }
    {
        let progress = self.take_in(who, 0)?;
        self.tags[slot as usize] = tag;
        Ok(progress)
    }

    fn store_sig(&mut self, who: u64, slot: u64, word: u64, value: u64) -> Result<Progress, Memory>
        requires { IsReady self.old who (StoreSig slot word value) }
        ensures stepped { IfOk result (λ progress. HasStepped (world_of self.old) who progress self.new) }
        ensures same { OnErr result (IsSame (world_of self.old) self.new) }
    {
        let progress = self.take_in(who, 0)?;
        self.sigs[(slot * self.shape.sig_words + word) as usize] = value;
        Ok(progress)
    }

    fn store_heap(&mut self, who: u64, addr: u64, value: u64) -> Result<Progress, Memory>
        requires { IsReady self.old who (StoreHeap addr value) }
        ensures stepped { IfOk result (λ progress. HasStepped (world_of self.old) who progress self.new) }
        ensures same { OnErr result (IsSame (world_of self.old) self.new) }
    {
        let progress = self.take_in(who, 0)?;
        self.heap[addr as usize] = value;
        Ok(progress)
    }

    /// The caller takes in the word that its step found.
    fn take_in(&mut self, who: u64, word: u64) -> Result<Progress, Memory>
        requires here { who < length self.old.members.items }
        requires shapes { HaveShape self.old }
        requires fits { CanAbsorb self.old.shape (process_at (world_of self.old) who).caller word }
        ensures taken { IfOk result (λ progress. HasTaken self.old who word progress self.new) }
        ensures same { OnErr result (IsSame (world_of self.old) self.new) }
    {
        let member = &mut self.members[who as usize];
        member.absorb(word)
    }

    /// The commit of the caller's attempt.
    fn entry_of(&self, who: u64) -> Result<Entry, Memory>
        requires { who < length self.now.members.items }
        ensures { IfOk result (λ entry. entry ≡ commit_of (process_of (member_at self.now who))) }
    {
        let member = &self.members[who as usize];
        member.entry(self.alloc)
    }
}
