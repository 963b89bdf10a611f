//! What a worker reports.
ghost use Rattle.std.specs.Prelude.{◌≡◌};

use std::marker::Model;

/// Numbers of messages that were drawn, which contracts see as their list.
#[derive(Drop)]
pub struct Drawn {
    numbers: Vec<u64>,
}

impl Model for Drawn {
    ghost use Rattle.std.specs.Prelude.{List, ℕ};

    ghost Value = { List ℕ };

    ghost view = { λ drawn. drawn.numbers.items };
}

impl Drawn {
    pub(crate) fn of(numbers: Vec<u64>) -> Drawn
        ensures { result ≡ numbers.items }
    {
        Drawn { numbers }
    }

    pub fn as_slice(&self) -> &[u64]
        ensures { result.now ≡ self.now }
    {
        self.numbers.as_slice()
    }
}

/// What a worker, or all of them, did.
#[derive(Drop)]
pub struct Report {
    /// The messages that were drawn.
    pub drawn: Drawn,
}
