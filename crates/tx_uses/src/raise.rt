//! The body that raises a word.
ghost use Rattle.std.specs.Prelude.{◌≡◌, [], ◌∷◌};
ghost use Rattle.tx_uses.specs.Raise.{word_of, MayRaise, DidRaise};

use crate::countdown::Countdown;
use thiserror::Error;
use tx_model::laws::reads_one_state;
use tx_model::{Body, BodyStep, TxMemory};

/// Why a word isn't raised.
#[derive(Clone, Copy, Debug, PartialEq, Eq, Error)]
pub enum RaiseRefusal {
    /// Word 0 is 0: there may be no more commit.
    #[error("there may be no more commit")]
    Spent,
    /// The word has the greatest value.
    #[error("the word has the greatest value")]
    Full,
}

/// What is tried: to take one off word 0 and to add one to another word.
#[derive(Drop)]
pub struct Raise {
    word: u64,
}

impl Raise {
    /// To raise this word.
    pub fn of(word: u64) -> Self
        ensures { word_of result ≡ word }
    {
        Raise { word }
    }
}

impl<M: TxMemory<Countdown>> Body<Countdown, M> for Raise {
    type Refusal = RaiseRefusal;

    ghost task = { λ body. word_of body ∷ [] };

    ghost needs = { λ _ opening task _. MayRaise opening task };

    ghost did = { λ _ _ body. DidRaise (word_of body) };

    fn attempt(&mut self, mem: &M, pass: &mut M::Pass) -> Result<(), BodyStep<RaiseRefusal>> {
        reads_one_state(mem, pass);
        let count = mem.read(pass, 0)?;
        let value = mem.read(pass, self.word)?;
        if count == 0 {
            return Err(BodyStep::Refused {
                refusal: RaiseRefusal::Spent,
            });
        }
        if value == u64::MAX {
            return Err(BodyStep::Refused {
                refusal: RaiseRefusal::Full,
            });
        }
        match mem.write(pass, 0, count - 1) {
            Ok(()) => {}
            Err(_) => unreachable!(),
        }
        match mem.write(pass, self.word, value + 1) {
            Ok(()) => Ok(()),
            Err(_) => unreachable!(),
        }
    }
}
