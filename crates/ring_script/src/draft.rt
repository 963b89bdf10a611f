//! What the lines of a script have said so far.

ghost use Rattle.std.specs.Prelude.{◌≡◌, ◌↔◌, ◌<◌, ◌≤◌, ◌+◌, ◌++◌, ◌^◌, ℕ, [], ◌∷◌, map, replicate, Decides, Contains, IfErr, IfOk, OnOk, Some};
ghost use Rattle.tx_model.specs.declared.gate.Region.{Region as RegionValue};
ghost use Rattle.ring_core.specs.declared.shape.Shape.{Shape as ShapeValue};
ghost use Rattle.ring_script.specs.Draft.{setup_of, events_of, AreBeside, Begins, IsAdded, IsHeld, IsShapeOf, IsUnsealed, LiesIn, MayAddRegion, MayAddWord, MayJoin, Steps, WithEvents, WithRegion, WithWord};
ghost use Rattle.ring_script.specs.Script.{MayOpenWith};
ghost use Rattle.tx_model.specs.Made.{IsIn, LieApart};

use crate::reading::{Asked, Head, asked_of, head_of, region_of, word_of};
use ring_core::Shape;
use ring_runs::{Act, Event, Regions, Setup, Words};
use std::alloc::Global;
use tx_model::{GATE_OPEN, GATE_PACKED, GATE_UNUSED, Region, Word};

/// The most regions of a script.
const MOST_REGIONS: usize = 64;

/// The group of the last line.
#[derive(Clone, Copy, PartialEq, Eq)]
pub enum Group {
    Regions,
    Words,
    Events,
}

/// Why a line isn't added.
#[derive(Clone, Copy, Drop)]
pub enum Refusal {
    Bad,
    Memory,
}

/// What the lines have said so far.
#[derive(Drop)]
pub struct Draft {
    shape: Shape,
    callers: u64,
    regions: Vec<Region>,
    first: Vec<u64>,
    group: Group,
    event_lines: u64,
    events: Vec<Event>,
}

impl Draft {
    /// What a script's first line says.
    pub fn begun(alloc: Global, tokens: &[&[u8]]) -> Result<Draft, Refusal>
        ensures { Begins (map (λ t. t.now) tokens.now) result }
    {
        let Some(head) = head_of(tokens) else {
            return Err(Refusal::Bad);
        };
        let Some(shape) = shape_of(head) else {
            return Err(Refusal::Bad);
        };
        match zeros(alloc, shape.heap) {
            Ok(first) => Ok(Draft {
                shape,
                callers: head.callers,
                regions: Vec::new(alloc),
                first,
                group: Group::Regions,
                event_lines: 0,
                events: Vec::new(alloc),
            }),
            Err(refusal) => Err(refusal),
        }
    }

    /// Adds what a further line says, where at most `limit` lines may have events.
    pub fn add(&mut self, number: u64, tokens: &[&[u8]], limit: u64) -> Result<(), Refusal>
        requires { IsHeld self.old }
        ensures { IsAdded limit self.old number (map (λ t. t.now) tokens.now) self.new result }
    {
        if let Some(region) = region_of(tokens) {
            return self.add_region(region);
        }
        if let Some(word) = word_of(tokens) {
            return self.add_word(word);
        }
        match asked_of(tokens) {
            Some(asked) => self.add_events(number, asked, limit),
            None => Err(Refusal::Bad),
        }
    }

    fn add_region(&mut self, region: Region) -> Result<(), Refusal>
        requires { IsHeld self.old }
        ensures { Steps (MayAddRegion self.old region) (WithRegion self.old region self.new) result }
    {
        if self.group != Group::Regions {
            return Err(Refusal::Bad);
        }
        if self.regions.len() >= MOST_REGIONS {
            return Err(Refusal::Bad);
        }
        if !may_join(self.regions.as_slice(), region, self.shape.heap) {
            return Err(Refusal::Bad);
        }
        match self.regions.push(region) {
            Ok(()) => Ok(()),
            Err(_) => Err(Refusal::Memory),
        }
    }

    fn add_word(&mut self, word: Word) -> Result<(), Refusal>
        requires { IsHeld self.old }
        ensures { Steps (MayAddWord self.old word) (WithWord self.old word self.new) result }
    {
        if self.group == Group::Events {
            return Err(Refusal::Bad);
        }
        if !may_open_with(self.regions.as_slice(), self.shape.heap, word) {
            return Err(Refusal::Bad);
        }
        self.group = Group::Words;
        self.first[word.addr as usize] = word.value;
        Ok(())
    }

    fn add_events(&mut self, number: u64, asked: Asked, limit: u64) -> Result<(), Refusal>
        ensures { Steps (self.old.event_lines < limit) (WithEvents self.old number asked self.new) result }
    {
        if self.event_lines >= limit {
            return Err(Refusal::Bad);
        }
        self.group = Group::Events;
        self.event_lines += 1;
        let event = Event {
            who: asked.request.who,
            act: asked.request.act,
            line: number,
        };
        push_event(&mut self.events, event)?;
        if asked.runs {
            let run = Event {
                who: asked.request.who,
                act: Act::Run,
                line: number,
            };
            push_event(&mut self.events, run)?;
        }
        Ok(())
    }

    /// The setup and the events.
    pub fn finished(self) -> (Setup, Vec<Event>)
        ensures setup { result.0 ≡ setup_of self }
        ensures events { result.1.items ≡ self.events.items }
    {
        let Draft {
            shape,
            callers,
            regions,
            first,
            group: _,
            event_lines: _,
            events,
        } = self;
        let setup = Setup {
            shape,
            callers,
            regions: Regions::of(regions),
            first: Words::of(first),
        };
        (setup, events)
    }
}

fn push_event(events: &mut Vec<Event>, event: Event) -> Result<(), Refusal>
    ensures pushed { OnOk result (events.new.items ≡ events.old.items ++ event ∷ []) }
    ensures wants { IfErr result (λ refusal. refusal ≡ Refusal.Memory) }
{
    match events.push(event) {
        Ok(()) => Ok(()),
        Err(_) => Err(Refusal::Memory),
    }
}

fn zeros(alloc: Global, count: u64) -> Result<Vec<u64>, Refusal>
    requires { count ≤ 65536 }
    ensures zeros { IfOk result (λ words. words.items ≡ replicate count 0) }
    ensures wants { IfErr result (λ refusal. refusal ≡ Refusal.Memory) }
{
    match vec![in alloc; 0u64; count as usize] {
        Ok(words) => Ok(words),
        Err(_) => Err(Refusal::Memory),
    }
}

/// The shape that the first line says, where its numbers are within their limits.
fn shape_of(head: Head) -> Option<Shape>
    ensures { (shape : ShapeValue) → (result ≡ Some shape) ↔ IsShapeOf head shape }
{
    let within = 1 <= head.ring
        && head.ring <= 4096
        && 1 <= head.words
        && head.words <= 65_536
        && 1 <= head.callers
        && head.callers <= 64
        && 1 <= head.life
        && head.life <= 1 << 60;
    if !within {
        return None;
    }
    let sig_words = match head.bits {
        64 => 1,
        128 => 2,
        256 => 4,
        512 => 8,
        1024 => 16,
        _ => return None,
    };
    Some(Shape {
        ring: head.ring,
        sig_words,
        heap: head.words,
        life: head.life,
    })
}

/// The region lies in the memory and beside the others, and no gate is in one of them.
fn may_join(regions: &[Region], region: Region, words: u64) -> bool
    requires few { words ≤ 65536 }
    requires within { (other : RegionValue) → Contains regions.now other → other.base + other.len ≤ words }
    ensures { Decides result (MayJoin regions.now region words) }
{
    if !lies_in(region, words) {
        return false;
    }
    for other in regions {
        if !are_beside(*other, region) {
            return false;
        }
    }
    true
}

/// The region and its gate lie in the memory, and the gate beside the region.
fn lies_in(region: Region, words: u64) -> bool
    ensures { Decides result (LiesIn region words) }
{
    region.len > 0
        && region.base <= words
        && region.len <= words - region.base
        && region.gate < words
        && !(region.base <= region.gate && region.gate - region.base < region.len)
}

/// The regions lie apart, and no gate is in the other one.
fn are_beside(one: Region, other: Region) -> bool
    requires first { one.base + one.len < 2 ^ 64 }
    requires second { other.base + other.len < 2 ^ 64 }
    ensures { Decides result (AreBeside one other) }
{
    are_apart(one, other)
        && one.gate != other.gate
        && !is_in(one.gate, other)
        && !is_in(other.gate, one)
}

fn are_apart(one: Region, other: Region) -> bool
    requires first { one.base + one.len < 2 ^ 64 }
    requires second { other.base + other.len < 2 ^ 64 }
    ensures { Decides result (LieApart one other) }
{
    one.base + one.len <= other.base || other.base + other.len <= one.base
}

fn is_in(addr: u64, region: Region) -> bool
    requires { region.base + region.len < 2 ^ 64 }
    ensures { Decides result (IsIn addr region) }
{
    region.base <= addr && addr < region.base + region.len
}

/// The word is in the memory, and where it is a gate it isn't sealed.
fn may_open_with(regions: &[Region], words: u64, word: Word) -> bool
    ensures { Decides result (MayOpenWith regions.now words word) }
{
    if word.addr >= words {
        return false;
    }
    for region in regions {
        if region.gate == word.addr && !is_unsealed(word.value) {
            return false;
        }
    }
    true
}

fn is_unsealed(gate: u64) -> bool
    ensures { Decides result (IsUnsealed gate) }
{
    gate == GATE_UNUSED || gate == GATE_OPEN || gate == GATE_PACKED
}
