//! What a caller may be asked for.
ghost use Rattle.std.specs.Prelude.{◌≡◌, ◌↔◌, ◌<◌, length, IsTrue};
ghost use Rattle.tx_model.specs.Attempt.{MayRead, MayWrite};
ghost use Rattle.ring_worlds.specs.Calls.{process_at};
ghost use Rattle.ring_worlds.specs.Moves.{IsBetween};
ghost use Rattle.ring_worlds.specs.World.{attempt_of};
ghost use Rattle.ring_state.specs.Plain.{read_address};
ghost use Rattle.ring_runs.specs.Acts.{IsAt};

use crate::world::World;
use tx_model::PassState;

impl World {
    /// The caller is in this state, with no request open.
    pub fn is_at(&self, who: u64, state: PassState) -> bool
        requires { who < length self.now.processes }
        ensures { IsTrue result ↔ IsAt state (process_at self.now who) }
    {
        self.local(who).state() == state && self.kind(who).is_none()
    }

    /// The caller's attempt is open, and no request.
    pub fn is_between(&self, who: u64) -> bool
        requires { who < length self.now.processes }
        ensures { IsTrue result ↔ IsBetween (process_at self.now who) }
    {
        self.is_at(who, PassState::Active)
    }

    /// Its attempt may read this word, by the rule of regions.
    pub fn may_read(&self, who: u64, addr: u64) -> bool
        requires { who < length self.now.processes }
        ensures { IsTrue result ↔ MayRead self.now.regions (attempt_of (process_at self.now who)) addr }
    {
        let member = &self.plain.members[who as usize];
        member.may_read(self.plain.regions.as_slice(), addr)
    }

    /// Its attempt may write this value there.
    pub fn may_write(&self, who: u64, addr: u64, value: u64) -> bool
        requires { who < length self.now.processes }
        ensures { IsTrue result ↔ MayWrite self.now.regions (attempt_of (process_at self.now who)) addr value }
    {
        let member = &self.plain.members[who as usize];
        member.may_write(self.plain.regions.as_slice(), addr, value)
    }

    /// The address that its open read asks for.
    pub(crate) fn asked(&self, who: u64) -> Option<u64>
        requires { who < length self.now.processes }
        ensures { result ≡ read_address (process_at self.now who).caller.stage }
    {
        let member = &self.plain.members[who as usize];
        member.asked()
    }
}
