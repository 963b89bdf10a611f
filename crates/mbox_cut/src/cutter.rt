//! The cut of a mailbox, line by line.
ghost use Rattle.std.specs.Prelude.{◌≡◌, ℕ, ◌<◌, ◌≤◌, ◌&&◌, false, not, is_some, [], ◌∷◌, ◌++◌, List, length, OnOk, IfOk};
ghost use Rattle.std.specs.List.{All, AllPairs};
ghost use Rattle.std.specs.Result.{IsErrOf, IsOkUnless};
ghost use Rattle.mbox_cut.specs.Mbox.{begins_as_mbox, begins_with_from, is_mbox, messages_of};
ghost use Rattle.mbox_cut.specs.Exactly.{ComesExactly};
ghost use Rattle.mbox_cut.specs.Cutting.{HasCut, HasTooMany, IsInOrder, open_message};
ghost use Rattle.mbox_cut.specs.Spans.{EndsBefore, LiesIn};

use crate::error::CutError;
use crate::lines::end_of_line;
use crate::separator::{is_empty_line, is_separator};
use crate::span::Span;
use std::alloc::Global;

/// The messages of a mailbox in order, each without its separator.
///
/// Fails with `NotMbox` where a line isn't empty and the first such line doesn't begin with `From `,
/// and with `TooMany` where there are more messages than `limit`, without reading on.
pub fn cut(alloc: Global, bytes: &[u8], limit: u64) -> Result<Vec<Span>, CutError>
    ensures ok { IfOk result (λ spans. spans.items ≡ messages_of bytes.now) }
    ensures within { IfOk result (λ spans. All (LiesIn (length bytes.now)) spans.items) }
    ensures rising { IfOk result (λ spans. AllPairs EndsBefore spans.items) }
    ensures exactly_not_mbox { ComesExactly result CutError.NotMbox (is_mbox bytes.now ≡ false) }
    ensures exactly_too_many { ComesExactly result CutError.TooMany (limit < length (messages_of bytes.now)) }
{
    let mut cutter = Cutter::new(alloc, limit);
    let mut start = 0;
    while start < bytes.len() {
        let end = end_of_line(bytes, start);
        cutter.take_line(bytes, start, end)?;
        start = end;
    }
    cutter.finish(bytes.len())
}

// The messages so far, where the open one starts, and whether the next line stands first or after an empty line;
// and how many messages there may be.
#[derive(Drop)]
struct Cutter {
    messages: Vec<Span>,
    message_start: Option<u64>,
    after_empty: bool,
    limit: u64,
}

impl Cutter {
    fn new(alloc: Global, limit: u64) -> Self
        ensures has_cut { (bytes : List ℕ) → HasCut bytes [] result }
        ensures in_order { IsInOrder result.messages.items result.message_start 0 }
        ensures limit { result.limit ≡ limit }
    {
        Cutter {
            messages: Vec::new(alloc),
            message_start: None,
            after_empty: true,
            limit,
        }
    }

    // Takes the next line, which lies from `start` up to `end`.
    fn take_line(&mut self, bytes: &[u8], start: usize, end: usize) -> Result<(), CutError>
        requires ordered { start < end }
        requires within { end ≤ length bytes.now }
        ensures ok { OnOk result ((lines : List Span) → HasCut bytes.now lines self.old
            → HasCut bytes.now (lines ++ record { from = start; to = end } ∷ []) self.new) }
        ensures in_order { OnOk result (IsInOrder self.old.messages.items self.old.message_start start
            → IsInOrder self.new.messages.items self.new.message_start end) }

        ensures limit { self.new.limit ≡ self.old.limit }
        // The first line that isn't empty is this one, and it doesn't begin with `From `.
        ensures not_mbox { IsErrOf result CutError.NotMbox → (lines later : List Span) → HasCut bytes.now lines self.old
            → begins_as_mbox bytes.now (lines ++ record { from = start; to = end } ∷ later) ≡ false }

        // This line begins one message more than the limit.
        ensures too_many { IsErrOf result CutError.TooMany → (lines later : List Span) → HasCut bytes.now lines self.old
            → HasTooMany bytes.now (lines ++ record { from = start; to = end } ∷ later) self.old.limit }
    {
        let line = &bytes[start..end];
        let is_empty = is_empty_line(line);
        if self.separates(line) {
            self.begin(start, end)?;
        } else if self.refuses(is_empty) {
            return Err(CutError::NotMbox);
        }
        self.after_empty = is_empty;
        Ok(())
    }

    // Whether a line is a separator after the lines so far.
    fn separates(&self, line: &[u8]) -> bool
        ensures { result ≡ (begins_with_from line.now && self.now.after_empty) }
    {
        self.after_empty && is_separator(line)
    }

    // Whether a line that is no separator is text before the first message.
    fn refuses(&self, is_empty: bool) -> bool
        ensures { result ≡ (not (is_some self.now.message_start) && not is_empty) }
    {
        self.message_start.is_none() && !is_empty
    }

    // Ends the open message at the start of a separator, and begins the next one at its end.
    fn begin(&mut self, start: usize, end: usize) -> Result<(), CutError>
        ensures closed { OnOk result (self.new.messages.items ≡ self.old.messages.items ++ open_message self.old.message_start start) }
        ensures begun { OnOk result (self.new.message_start ≡ Some end) }
        ensures room { OnOk result (length self.new.messages.items < self.old.limit) }
        ensures limit { self.new.limit ≡ self.old.limit }
        ensures no_room { IsErrOf result CutError.TooMany → self.old.limit ≤ length (self.old.messages.items ++ open_message self.old.message_start start) }
        ensures mbox { ¬ IsErrOf result CutError.NotMbox }
    {
        self.close(start)?;
        if self.messages.len() as u64 >= self.limit {
            return Err(CutError::TooMany);
        }
        self.message_start = Some(end as u64);
        Ok(())
    }

    // Ends the open message, if there is one.
    fn close(&mut self, end: usize) -> Result<(), CutError>
        ensures closed { OnOk result (self.new.messages.items ≡ self.old.messages.items ++ open_message self.old.message_start end) }
        ensures kept { (self.new.message_start ≡ self.old.message_start) × (self.new.after_empty ≡ self.old.after_empty) × (self.new.limit ≡ self.old.limit) }
        ensures memory { IsOkUnless result CutError.Memory }
    {
        if let Some(from) = self.message_start {
            self.messages.push(Span {
                from,
                to: end as u64,
            })?;
        }
        Ok(())
    }

    // All messages, the last of which ends here.
    fn finish(mut self, end: usize) -> Result<Vec<Span>, CutError>
        ensures closed { IfOk result (λ spans. spans.items ≡ self.messages.items ++ open_message self.message_start end) }
        ensures memory { IsOkUnless result CutError.Memory }
    {
        self.close(end)?;
        Ok(self.messages)
    }
}
