//! Laws of worlds, each the contract of a function that does nothing at run time.
ghost use Rattle.ring_worlds.specs.Examples.{OpeningExample, RunExample, MiddleExample, NotSound, early_world, stale_world, hasty_world, lost_world, disordered_world, unwaited_world, intruded_world, SealExample, NoSealExample};
ghost use Rattle.ring_worlds.specs.Laws.{StepsKeep, StepsShorten, MayAbsorb, StartStays, StepExists, StepUnique, MoveKeeps, OpeningIsSound, RunKeeps, ReachedIsSound, ReadsFromOneState, JoinKeeps, SpendKeeps, BecomeKeeps, OwnedStoreKeeps, OwnedIsPrivate, OthersLeaveOwned};
ghost use Rattle.ring_worlds.specs.Table.{IndexLoadOnTable};

use ring_core::laws::{move_keeps, opening_is_sound, step_keeps};
use ring_sig::laws::signatures_meet;

/// A step of each kind keeps a world sound, and its answer is true.
pub fn steps_keep()
    ensures { StepsKeep }
{
    step_keeps();
    signatures_meet();
}

/// A caller with an open request has exactly one next step, which moves no start back.
pub fn next_step()
    ensures absorbs { MayAbsorb }
    ensures start { StartStays }
    ensures exists { StepExists }
    ensures unique { StepUnique }
{
    step_keeps();
    signatures_meet();
}

/// Each step leaves fewer of them in the request, so that each request ends.
pub fn steps_shorten()
    ensures { StepsShorten }
{
    next_step();
}

/// What a caller does without a step keeps a world sound.
pub fn moves_keep()
    ensures { MoveKeeps }
{
    move_keeps();
}

/// The world before the first step is sound.
pub fn opening_keeps()
    ensures { OpeningIsSound }
{
    opening_is_sound();
}

/// Every world that a run leads to is sound.
pub fn runs_keep()
    ensures keeps { RunKeeps }
    ensures reached { ReachedIsSound }
{
    opening_keeps();
    steps_keep();
    moves_keep();
    owned_stores_keep();
}

/// In a sound world the reads of each attempt are of one state.
pub fn reads_from_one_state()
    ensures { ReadsFromOneState }
{}

/// Callers may come and go.
pub fn callers_change()
    ensures join { JoinKeeps }
    ensures spend { SpendKeeps }
    ensures becomes { BecomeKeeps }
{
    opening_is_sound();
}

/// What the owner of a region stores in it keeps a world sound.
pub fn owned_stores_keep()
    ensures { OwnedStoreKeeps }
{}

/// A region that a caller owns is its own: nobody else has read its words since it was sealed, or has one still to store.
pub fn owned_regions_are_private()
    ensures private { OwnedIsPrivate }
    ensures others { OthersLeaveOwned }
{
    steps_keep();
}

/// A run of two callers, and the world in the middle of it.
pub fn run_examples()
    ensures opening { OpeningExample }
    ensures run { RunExample }
    ensures middle { MiddleExample }
{
    opening_keeps();
    runs_keep();
}

/// Worlds to which wrong machines would lead, and that aren't sound.
pub fn unsound_examples()
    ensures early { NotSound early_world }
    ensures stale { NotSound stale_world }
    ensures hasty { NotSound hasty_world }
    ensures lost { NotSound lost_world }
    ensures disordered { NotSound disordered_world }
    ensures unwaited { NotSound unwaited_world }
    ensures intruded { NotSound intruded_world }
{}

/// A region whose gate was read as open may be sealed, and one whose gate wasn't read may not.
pub fn seal_examples()
    ensures seals { SealExample }
    ensures not_unread { NoSealExample }
{}

/// The law of one kind as the rule of a table of words takes it.
pub fn index_load_on_table()
    ensures { IndexLoadOnTable }
{
    steps_keep();
    next_step();
}
