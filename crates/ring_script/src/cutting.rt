//! How a script falls into lines, and a line into tokens.

ghost use Rattle.std.specs.Prelude.{◌≡◌, ◌<◌, ◌≤◌, [], ◌∷◌, length, map, MatchOption, IfSome};
ghost use Rattle.ring_script.specs.Lines.{pieces, contents, without_return, is_read, parted, tokens_of};

use arrayvec::ArrayVec;

/// The most tokens that a line of a script has.
const MOST_TOKENS: usize = 10;

/// The first line of a text, and what is behind it. A carriage return before the line feed isn't of the line.
pub fn cut_line(text: &[u8]) -> (&[u8], Option<&[u8]>)
    ensures lines { MatchOption result.1 (contents (pieces 10 text.now) ≡ result.0.now ∷ [])
        (λ rest. contents (pieces 10 text.now) ≡ result.0.now ∷ contents (pieces 10 rest.now)) }
    ensures shorter { IfSome result.1 (λ rest. length rest.now < length text.now) }
{
    let (line, behind) = cut(text, b'\n');
    match behind {
        None => (line, None),
        Some(rest) => (without_return(line), Some(rest)),
    }
}

/// A line that is neither empty nor begins with `#`.
pub fn is_read(content: &[u8]) -> bool
    ensures { result ≡ is_read content.now }
{
    match content.first() {
        None => false,
        Some(byte) => *byte != b'#',
    }
}

/// The tokens of a line, where they are no more than a line of a script has.
pub fn tokens_in(content: &[u8]) -> Option<ArrayVec<&[u8], MOST_TOKENS>>
    ensures { MatchOption result (10 < length (tokens_of content.now)) (λ tokens. map (λ t. t.now) tokens.items ≡ tokens_of content.now) }
{
    let mut tokens = ArrayVec::new();
    let mut rest = Some(content);
    while let Some(content) = rest {
        if tokens.is_full() {
            return None;
        }
        let (token, behind) = cut_token(content);
        tokens.push(token);
        rest = behind;
    }
    Some(tokens)
}

/// The first token of a line, and what is behind the spaces behind it.
fn cut_token(content: &[u8]) -> (&[u8], Option<&[u8]>)
    ensures tokens { MatchOption result.1 (tokens_of content.now ≡ result.0.now ∷ [])
        (λ rest. tokens_of content.now ≡ result.0.now ∷ tokens_of rest.now) }
    ensures shorter { IfSome result.1 (λ rest. length rest.now < length content.now) }
{
    let (token, behind) = cut(content, b' ');
    match behind {
        None => (token, None),
        Some(rest) => (token, Some(without_spaces(rest))),
    }
}

/// What is before the first separator, and what is behind it, if there is one.
fn cut(bytes: &[u8], separator: u8) -> (&[u8], Option<&[u8]>)
    ensures pieces { MatchOption result.1 (pieces separator bytes.now ≡ result.0.now ∷ [])
        (λ rest. pieces separator bytes.now ≡ result.0.now ∷ pieces separator rest.now) }
    ensures shorter { IfSome result.1 (λ rest. length rest.now < length bytes.now) }
{
    for at in 0..bytes.len() {
        if bytes[at] == separator {
            return (&bytes[..at], Some(&bytes[at + 1..]));
        }
    }
    (bytes, None)
}

fn without_return(line: &[u8]) -> &[u8]
    ensures { result.now ≡ without_return line.now }
{
    let count = line.len();
    if count > 0 && line[count - 1] == b'\r' {
        &line[..count - 1]
    } else {
        line
    }
}

/// Without the spaces at the beginning.
fn without_spaces(content: &[u8]) -> &[u8]
    ensures tokens { parted (pieces 32 content.now) ≡ tokens_of result.now }
    ensures shorter { length result.now ≤ length content.now }
{
    for at in 0..content.len() {
        if content[at] != b' ' {
            return &content[at..];
        }
    }
    &[]
}
