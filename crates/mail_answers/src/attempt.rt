//! What is tried for a query: reading the messages of its words, in an attempt that writes nothing.
use crate::lists::ReadLists;
use crate::reading::read_lists;
use mail_words::Key;
use std::alloc::Global;
use tx_heap::MailSense;
use tx_model::{Body, BodyStep, TxMemory};
use tx_postings::ListStop;

/// Why the messages of the keys weren't read.
#[derive(Clone, Copy)]
pub(crate) enum Unread {
    /// Want of memory.
    Memory,
    /// A segment is sealed.
    Sealed { segment: u64 },
}

/// The keys, and their messages as the last attempt read them.
#[derive(Drop)]
pub(crate) struct Asking {
    pub(crate) alloc: Global,
    pub(crate) keys: Vec<Key>,
    pub(crate) read: ReadLists,
}

/// The pass owns nothing.
impl<M: TxMemory<MailSense>> Body<MailSense, M> for Asking {
    ghost use Rattle.std.specs.Prelude.{◌≡◌, []};
    ghost use Rattle.mail_answers.specs.Asking.{DidAsk, numbers_in};

    type Refusal = Unread;

    ghost task = { λ asking. numbers_in asking.keys.items };

    ghost needs = { λ _ _ _ owned. owned ≡ [] };

    ghost did = { λ lists opening asking. DidAsk lists opening asking.keys.items asking.read.lists };

    fn attempt(&mut self, mem: &M, pass: &mut M::Pass) -> Result<(), BodyStep<Unread>> {
        match read_lists(self.alloc, mem, pass, self.keys.as_slice()) {
            Ok(read) => {
                self.read = read;
                Ok(())
            }
            Err(ListStop::Stopped { stop }) => Err(BodyStep::Stopped { stop }),
            Err(ListStop::Sealed { segment }) => Err(BodyStep::Refused {
                refusal: Unread::Sealed { segment },
            }),
            Err(ListStop::Memory) => Err(BodyStep::Refused {
                refusal: Unread::Memory,
            }),
        }
    }
}
