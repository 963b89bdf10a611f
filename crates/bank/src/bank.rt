//! What the words of a bank's memory mean.
ghost use Rattle.std.specs.Prelude.{◌≡◌, ◌+◌, ◌<◌, ◌^◌, []};
ghost use Rattle.bank.specs.Bank.{IsBank, transfers_left};

use tx_model::Sense;

/// A bank of so many accounts. Word `n` of the memory is the balance of account `n`. Behind the accounts each teller has a word,
/// which says how many transfers it may still make.
#[derive(Drop)]
pub struct Bank {
    pub accounts: u64,
}

impl Bank {
    /// The word that counts a teller's transfers.
    pub fn count_of(&self, teller: u64) -> u64
        requires { self.now.accounts + teller < 2 ^ 64 }
        ensures { result ≡ self.now.accounts + teller }
    {
        self.accounts + teller
    }
}

impl Sense for Bank {
    ghost allows = { λ _ regions. regions ≡ [] };

    ghost good = { λ bank. IsBank bank.accounts };

    ghost budget = { λ bank. transfers_left bank.accounts };

    ghost budget_falls = { λ _ opening words good. good.left };
}
