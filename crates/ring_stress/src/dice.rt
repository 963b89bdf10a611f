//! Numbers that look drawn.
ghost use Rattle.std.specs.Prelude.{◌<◌};

/// An odd number near 2^64 divided by the golden ratio.
const MIX: u64 = 0x9E37_79B9_7F4A_7C15;

/// A generator. Its numbers are a function of the number that it began with.
#[derive(Clone, Copy)]
pub struct Dice {
    last: u64,
}

impl Dice {
    pub fn of(seed: u64) -> Dice {
        Dice {
            last: seed.wrapping_mul(MIX),
        }
    }

    /// The next number.
    pub fn next(&mut self) -> u64 {
        self.last = self.last.wrapping_add(MIX);
        let mixed = (self.last ^ (self.last >> 30)).wrapping_mul(0xBF58_476D_1CE4_E5B9);
        let mixed = (mixed ^ (mixed >> 27)).wrapping_mul(0x94D0_49BB_1331_11EB);
        mixed ^ (mixed >> 31)
    }

    /// The next number, below a bound.
    pub fn below(&mut self, bound: u64) -> u64
        requires { 0 < bound }
        ensures { result < bound }
    {
        self.next() % bound
    }
}
