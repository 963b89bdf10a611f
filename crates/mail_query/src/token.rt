//! The tokens of a text.
ghost use Rattle.std.specs.Prelude.{◌≡◌, ◌∷◌, [], ◌<◌, ◌≤◌, MatchOption, IfSome, length};
ghost use Rattle.std.specs.List.{prefix_len};
ghost use Rattle.std.specs.Char.{is_ascii_alphanumeric};
ghost use Rattle.mail_query.specs.Tokens.{tokens_of, sign_of, IsWhole};
ghost use Rattle.mail_query.specs.View.{token_of};

/// A token of a query's text.
#[derive(Clone, Copy)]
pub enum Token<'a> {
    /// Letters and digits, as many as stand together.
    Run(&'a [u8]),
    /// `!`
    Bang,
    /// `|`
    Bar,
    /// `(`
    Open,
    /// `)`
    Close,
    /// Any other byte but a space.
    Other,
}

/// The first token of the text and the text after it. `None` where only spaces are left.
pub fn next_token(text: &[u8]) -> Option<(Token<'_>, &[u8])>
    ensures token { MatchOption result (tokens_of text.now ≡ []) (λ found. tokens_of text.now ≡ token_of found.0 ∷ tokens_of found.1.now) }
    ensures whole { IfSome result (λ found. IsWhole (token_of found.0)) }
    ensures shorter { IfSome result (λ found. length found.1.now < length text.now) }
{
    let mut rest = text;
    while let Some((byte, after)) = rest.split_first() {
        if *byte == b' ' {
            rest = after;
        } else if byte.is_ascii_alphanumeric() {
            let (run, after) = rest.split_at(run_len(rest));
            return Some((Token::Run(run), after));
        } else {
            return Some((sign_of(*byte), after));
        }
    }
    None
}

// How many letters and digits the text begins with.
fn run_len(text: &[u8]) -> usize
    ensures value { result ≡ prefix_len is_ascii_alphanumeric text.now }
    ensures bound { result ≤ length text.now }
{
    text.iter()
        .take_while(|byte| byte.is_ascii_alphanumeric())
        .count()
}

// The token of a byte that is no letter, digit or space.
fn sign_of<'a>(byte: u8) -> Token<'a>
    ensures { token_of result ≡ sign_of byte }
{
    match byte {
        b'!' => Token::Bang,
        b'|' => Token::Bar,
        b'(' => Token::Open,
        b')' => Token::Close,
        _ => Token::Other,
    }
}
