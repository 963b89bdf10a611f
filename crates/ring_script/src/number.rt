//! Numbers of a script.
ghost use Rattle.std.specs.Prelude.{◌≡◌, ◌↔◌, ℕ, Some};
ghost use Rattle.ring_script.specs.Lines.{IsNumber};

/// The most digits that a number has.
const MOST_DIGITS: usize = 20;

/// The number that a token is, if it is one: 1 to 20 decimal digits, below 2^64.
pub fn number_of(token: &[u8]) -> Option<u64>
    ensures { (number : ℕ) → (result ≡ Some number) ↔ IsNumber token.now number }
{
    let digits = token.len();
    if digits == 0 || digits > MOST_DIGITS {
        return None;
    }
    let mut value: u64 = 0;
    for byte in token {
        if *byte < b'0' || *byte > b'9' {
            return None;
        }
        let digit = (*byte - b'0') as u64;
        if value > (u64::MAX - digit) / 10 {
            return None;
        }
        value = value * 10 + digit;
    }
    Some(value)
}
