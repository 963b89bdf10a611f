//! The mailbox of three messages, and a memory with its index.
ghost use Rattle.std.specs.Prelude.{◌≡◌, IfOk};
ghost use Rattle.turn_memory.specs.Lock.{first_pass};

use mail_gen::make_mbox;
use mail_words::{WordLists, lists_of};
use mbox_cut::{Span, cut};
use std::alloc::Global;
use std::test::Fail;
use turn_memory::{TurnMemory, TurnPass};
use tx_heap::{MailSense, opening};
use tx_model::{Memory, TxMemory};

/// A mailbox of three messages.
pub const MAILBOX: &[u8] =
    b"From alice@example.org Mon Mar  3 09:15:02 2008\nSubject: Ring test\n\nHello ring\n\n\
      From bob@example.org Mon Mar  3 09:20:00 2008\nSubject: other\n\nhello bloom\n\n\
      From carol@example.org Mon Mar  3 09:25:00 2008\nRING bloom bloom\n\n";

/// Where its messages lie.
pub const SPANS: [Span; 3] = [
    Span { from: 48, to: 80 },
    Span { from: 126, to: 155 },
    Span { from: 203, to: 221 },
];

/// The sense of an index of these lists, where they are within the limits.
pub fn sense_of(lists: WordLists) -> Option<MailSense> {
    if lists.messages() <= 1_048_576 && lists.postings() <= 8_388_608 {
        Some(MailSense::of(lists))
    } else {
        None
    }
}

/// The word lists of three messages.
pub fn three_lists(alloc: Global) -> Result<WordLists, Fail> {
    let lists = lists_of(alloc, MAILBOX, &SPANS, 10)?;
    Ok(lists)
}

/// The sense of an index of three messages.
pub fn three_messages(alloc: Global) -> Result<MailSense, Fail> {
    let lists = three_lists(alloc)?;
    let sense = sense_of(lists).ok_or("too many")?;
    Ok(sense)
}

/// The sense of an index of no messages.
pub fn no_messages(alloc: Global) -> Result<MailSense, Fail> {
    let lists = lists_of(alloc, b"", &[], 0)?;
    let sense = sense_of(lists).ok_or("too many")?;
    Ok(sense)
}

/// The sense of an index of so many made messages.
pub fn made_messages(alloc: Global, count: u64) -> Result<MailSense, Fail> {
    let bytes = make_mbox(alloc, count)?;
    let spans = cut(alloc, &bytes, count)?;
    let lists = lists_of(alloc, &bytes, &spans, 1_000_000)?;
    let sense = sense_of(lists).ok_or("too many")?;
    Ok(sense)
}

/// A memory with the opening of an index, and its first pass.
pub fn index_of(
    alloc: Global,
    sense: MailSense,
) -> Result<(TurnMemory<MailSense>, TurnPass<MailSense>), Memory>
    ensures of { IfOk result (λ r. ⟦<TurnMemory<MailSense> as TxMemory<MailSense>>⟧.of r.0 r.1) }
    ensures view { IfOk result (λ r. ⟦<TurnMemory<MailSense> as TxMemory<MailSense>>⟧.view r.1 ≡ first_pass) }
{
    let words = opening(alloc, &sense)?;
    let regions = sense.plan().regions(alloc)?;
    TurnMemory::new(alloc, sense, words, regions, 100_000)
}
