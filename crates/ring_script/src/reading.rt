//! What a line of a script says, by its tokens.
ghost use Rattle.std.specs.Prelude.{◌≡◌, ◌↔◌, ◌+◌, ◌<◌, ℕ, length, map, Some};
ghost use Rattle.tx_model.specs.declared.gate.Region.{Region};
ghost use Rattle.tx_model.specs.declared.word.Word.{Word};
ghost use Rattle.ring_script.specs.Grammar.{IsEventLine, IsRunLine};
ghost use Rattle.ring_script.specs.Reading.{IsNamedAt, IsHead, IsAsked, IsRegionLine, IsWordLine};
ghost use Rattle.ring_script.specs.declared.reading.Head.{Head};
ghost use Rattle.ring_script.specs.declared.reading.Asked.{Asked};
ghost use Rattle.ring_script.specs.declared.reading.Request.{Request};

use crate::name::{act_of, may_run};
use crate::number::number_of;
use crate::numbers::{has_at, named_numbers, region_in, word_in};
use ring_runs::Act;
use tx_model::{Region, Word};

/// The numbers of the first line.
#[derive(Clone, Copy)]
pub struct Head {
    pub ring: u64,
    pub bits: u64,
    pub words: u64,
    pub callers: u64,
    pub life: u64,
}

/// What a line asks of a caller.
#[derive(Clone, Copy)]
pub struct Request {
    pub who: u64,
    pub act: Act,
}

/// The same, and whether it is run on the same line.
#[derive(Clone, Copy)]
pub struct Asked {
    pub request: Request,
    pub runs: bool,
}

/// The first line of a script.
pub fn head_of(tokens: &[&[u8]]) -> Option<Head>
    ensures { (head : Head) → (result ≡ Some head) ↔ IsHead (map (λ t. t.now) tokens.now) head }
{
    if tokens.len() != 10 {
        return None;
    }
    let ring = named_number(tokens, 0, b"ring")?;
    let bits = named_number(tokens, 2, b"bits")?;
    let words = named_number(tokens, 4, b"words")?;
    let callers = named_number(tokens, 6, b"callers")?;
    let life = named_number(tokens, 8, b"life")?;
    Some(Head {
        ring,
        bits,
        words,
        callers,
        life,
    })
}

/// The number behind this name at this index.
fn named_number(tokens: &[&[u8]], at: usize, name: &[u8]) -> Option<u64>
    requires { at + 1 < length tokens.now }
    ensures { (number : ℕ) → (result ≡ Some number) ↔ IsNamedAt (map (λ t. t.now) tokens.now) at name.now number }
{
    if !has_at(tokens, at, name) {
        return None;
    }
    number_of(tokens[at + 1])
}

/// A line with a region.
pub fn region_of(tokens: &[&[u8]]) -> Option<Region>
    ensures { (region : Region) → (result ≡ Some region) ↔ IsRegionLine (map (λ t. t.now) tokens.now) region }
{
    let numbers = named_numbers(tokens, b"region")?;
    region_in(numbers.as_slice())
}

/// A line with a word of the memory.
pub fn word_of(tokens: &[&[u8]]) -> Option<Word>
    ensures { (word : Word) → (result ≡ Some word) ↔ IsWordLine (map (λ t. t.now) tokens.now) word }
{
    let numbers = named_numbers(tokens, b"word")?;
    word_in(numbers.as_slice())
}

/// A line with an event, or with a request that is run.
pub fn asked_of(tokens: &[&[u8]]) -> Option<Asked>
    ensures { (asked : Asked) → (result ≡ Some asked) ↔ IsAsked (map (λ t. t.now) tokens.now) asked }
{
    if let Some(request) = run_of(tokens) {
        return Some(Asked {
            request,
            runs: true,
        });
    }
    match request_of(tokens) {
        Some(request) => Some(Asked {
            request,
            runs: false,
        }),
        None => None,
    }
}

/// A request and the further token `run`.
fn run_of(tokens: &[&[u8]]) -> Option<Request>
    ensures { (request : Request) → (result ≡ Some request) ↔ IsRunLine (map (λ t. t.now) tokens.now) request.who request.act }
{
    let count = tokens.len();
    if count == 0 {
        return None;
    }
    if !has_at(tokens, count - 1, b"run") {
        return None;
    }
    let request = request_of(&tokens[..count - 1])?;
    if may_run(request.act) {
        Some(request)
    } else {
        None
    }
}

/// A caller's number and what it is asked for.
fn request_of(tokens: &[&[u8]]) -> Option<Request>
    ensures { (request : Request) → (result ≡ Some request) ↔ IsEventLine (map (λ t. t.now) tokens.now) request.who request.act }
{
    if tokens.is_empty() {
        return None;
    }
    let who = number_of(tokens[0])?;
    let act = act_of(&tokens[1..])?;
    Some(Request { who, act })
}
