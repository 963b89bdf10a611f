//! Laws. A step of each kind leads a sound world to a sound one, and the caller learns what the answer says. Those of schedules
//! are the contracts of functions that do nothing at run time.
ghost use Rattle.std.specs.Prelude.{◌≡◌, IfOk, OnErr};
ghost use Rattle.ring_core.specs.declared.kind.Kind.{Kind};
ghost use Rattle.ring_core.specs.declared.kind.Kind.TheVariants.{LoadIndex, LoadTag, LoadSig, LoadHeap, SwapIndex, StoreTagFilling, StoreSig, StoreTagWriting, StoreHeap, StoreTagComplete};
ghost use Rattle.ring_worlds.specs.Calls.{IsAsking, IsNext, KeepsAndTells};
ghost use Rattle.ring_runs.specs.Laws.{TracesAgree, SchedulesRun, DoneExample};

use crate::world::World;
use ring_core::Progress;
use ring_worlds::laws::{next_step, steps_keep};
use tx_model::Memory;

/// A load of the index.
pub fn load_index(world: &mut World, who: u64) -> Result<Progress, Memory>
    requires { IsNext world.old who LoadIndex }
    ensures law { IfOk result (λ progress. KeepsAndTells world.old who LoadIndex progress world.new) }
    ensures kept { OnErr result (world.new ≡ world.old) }
{
    next_of_kind(world, who)
}

/// A load of the tag of a slot.
pub fn load_tag(world: &mut World, who: u64) -> Result<Progress, Memory>
    requires { IsNext world.old who LoadTag }
    ensures law { IfOk result (λ progress. KeepsAndTells world.old who LoadTag progress world.new) }
    ensures kept { OnErr result (world.new ≡ world.old) }
{
    next_of_kind(world, who)
}

/// A load of a signature word of a slot.
pub fn load_sig(world: &mut World, who: u64) -> Result<Progress, Memory>
    requires { IsNext world.old who LoadSig }
    ensures law { IfOk result (λ progress. KeepsAndTells world.old who LoadSig progress world.new) }
    ensures kept { OnErr result (world.new ≡ world.old) }
{
    next_of_kind(world, who)
}

/// A load of a word of the memory.
pub fn load_heap(world: &mut World, who: u64) -> Result<Progress, Memory>
    requires { IsNext world.old who LoadHeap }
    ensures law { IfOk result (λ progress. KeepsAndTells world.old who LoadHeap progress world.new) }
    ensures kept { OnErr result (world.new ≡ world.old) }
{
    next_of_kind(world, who)
}

/// A compare-and-swap of the index. Where it succeeds, the caller's commit joins the history.
pub fn swap_index(world: &mut World, who: u64) -> Result<Progress, Memory>
    requires { IsNext world.old who SwapIndex }
    ensures law { IfOk result (λ progress. KeepsAndTells world.old who SwapIndex progress world.new) }
    ensures kept { OnErr result (world.new ≡ world.old) }
{
    next_of_kind(world, who)
}

/// A store of the tag `filling`.
pub fn store_tag_filling(world: &mut World, who: u64) -> Result<Progress, Memory>
    requires { IsNext world.old who StoreTagFilling }
    ensures law { IfOk result (λ progress. KeepsAndTells world.old who StoreTagFilling progress world.new) }
    ensures kept { OnErr result (world.new ≡ world.old) }
{
    next_of_kind(world, who)
}

/// A store of a signature word.
pub fn store_sig(world: &mut World, who: u64) -> Result<Progress, Memory>
    requires { IsNext world.old who StoreSig }
    ensures law { IfOk result (λ progress. KeepsAndTells world.old who StoreSig progress world.new) }
    ensures kept { OnErr result (world.new ≡ world.old) }
{
    next_of_kind(world, who)
}

/// A store of the tag `writing`.
pub fn store_tag_writing(world: &mut World, who: u64) -> Result<Progress, Memory>
    requires { IsNext world.old who StoreTagWriting }
    ensures law { IfOk result (λ progress. KeepsAndTells world.old who StoreTagWriting progress world.new) }
    ensures kept { OnErr result (world.new ≡ world.old) }
{
    next_of_kind(world, who)
}

/// A store of a word of the memory.
pub fn store_heap(world: &mut World, who: u64) -> Result<Progress, Memory>
    requires { IsNext world.old who StoreHeap }
    ensures law { IfOk result (λ progress. KeepsAndTells world.old who StoreHeap progress world.new) }
    ensures kept { OnErr result (world.new ≡ world.old) }
{
    next_of_kind(world, who)
}

/// A store of the tag `complete`.
pub fn store_tag_complete(world: &mut World, who: u64) -> Result<Progress, Memory>
    requires { IsNext world.old who StoreTagComplete }
    ensures law { IfOk result (λ progress. KeepsAndTells world.old who StoreTagComplete progress world.new) }
    ensures kept { OnErr result (world.new ≡ world.old) }
{
    next_of_kind(world, who)
}

/// The next step of the caller, of whatever kind it is.
fn next_of_kind(world: &mut World, who: u64) -> Result<Progress, Memory>
    requires { IsAsking world.old who }
    ensures law { (kind : Kind) → IsNext world.old who kind → IfOk result (λ progress. KeepsAndTells world.old who kind progress world.new) }
    ensures kept { OnErr result (world.new ≡ world.old) }
{
    steps_keep();
    world.is_sound();
    world.step(who)
}

/// A schedule has one trace.
pub fn traces_agree()
    ensures { TracesAgree }
{
    next_step();
}

/// A schedule is a run: it is made of steps and moves.
pub fn schedules_run()
    ensures { SchedulesRun }
{}

/// A caller that begins and is done.
pub fn schedule_examples()
    ensures { DoneExample }
{}
