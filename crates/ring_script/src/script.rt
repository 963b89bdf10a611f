//! Scripts, read from their text.
ghost use Rattle.std.specs.Prelude.{◌≡◌, List, map};
ghost use Rattle.ring_script.specs.Lines.{Line};
ghost use Rattle.ring_script.specs.Script.{Reads, ReadsWithin};
ghost use Rattle.ring_script.specs.Draft.{Adding, Beginning, HasLine, HasPiece, IsHeld, IsHeldIf, IsSoFar, at_line};

use crate::cutting::{cut_line, is_read, tokens_in};
use crate::draft::{Draft, Refusal};
use crate::error::ScriptError;
use ring_runs::{Event, Setup};
use std::alloc::Global;

/// The most lines of a script that have events.
const MOST_EVENT_LINES: u64 = 1_000_000;

/// The setup and the events that a script says, or its first line that isn't one of a script.
pub fn parse_script(alloc: Global, text: &[u8]) -> Result<(Setup, Vec<Event>), ScriptError>
    ensures { Reads text.now result }
{
    parse_within(alloc, text, MOST_EVENT_LINES)
}

/// The same with at most `limit` lines of events.
pub fn parse_within(
    alloc: Global,
    text: &[u8],
    limit: u64,
) -> Result<(Setup, Vec<Event>), ScriptError>
    ensures { ReadsWithin limit text.now result }
{
    let mut draft = None;
    let mut rest = Some(text);
    let mut number: u64 = 0;
    while let Some(text) = rest {
        let (content, behind) = cut_line(text);
        number += 1;
        draft = with_piece(alloc, draft, number, content, limit)?;
        rest = behind;
    }
    match draft {
        Some(draft) => Ok(draft.finished()),
        None => Err(ScriptError::BadLine { line: 1 }),
    }
}

/// What the lines say with one more, if it is read.
fn with_piece(
    alloc: Global,
    draft: Option<Draft>,
    number: u64,
    content: &[u8],
    limit: u64,
) -> Result<Option<Draft>, ScriptError>
    requires { IsHeldIf draft }
    ensures { (lines : List Line) → IsSoFar limit lines draft → HasPiece limit lines (record { number = number; content = content.now }) result }
{
    if !is_read(content) {
        return Ok(draft);
    }
    match with_line(alloc, draft, number, content, limit) {
        Ok(draft) => Ok(Some(draft)),
        Err(error) => Err(error),
    }
}

/// What the lines say with one more.
fn with_line(
    alloc: Global,
    draft: Option<Draft>,
    number: u64,
    content: &[u8],
    limit: u64,
) -> Result<Draft, ScriptError>
    requires { IsHeldIf draft }
    ensures { (lines : List Line) → IsSoFar limit lines draft → HasLine limit lines (record { number = number; content = content.now }) result }
{
    let Some(tokens) = tokens_in(content) else {
        return Err(ScriptError::BadLine { line: number });
    };
    let tokens = tokens.as_slice();
    match draft {
        None => first_line(alloc, number, tokens),
        Some(draft) => further_line(draft, number, tokens, limit),
    }
}

fn first_line(alloc: Global, number: u64, tokens: &[&[u8]]) -> Result<Draft, ScriptError>
    ensures { Beginning number (map (λ t. t.now) tokens.now) result }
{
    match Draft::begun(alloc, tokens) {
        Ok(draft) => Ok(draft),
        Err(refusal) => Err(at_line(refusal, number)),
    }
}

fn further_line(
    mut draft: Draft,
    number: u64,
    tokens: &[&[u8]],
    limit: u64,
) -> Result<Draft, ScriptError>
    requires { IsHeld draft }
    ensures { Adding limit draft number (map (λ t. t.now) tokens.now) result }
{
    match draft.add(number, tokens, limit) {
        Ok(()) => Ok(draft),
        Err(refusal) => Err(at_line(refusal, number)),
    }
}

/// The refusal of the line of this number.
fn at_line(refusal: Refusal, line: u64) -> ScriptError
    ensures { result ≡ at_line refusal line }
{
    match refusal {
        Refusal::Bad => ScriptError::BadLine { line },
        Refusal::Memory => ScriptError::Memory,
    }
}
