//! The reading of a text.
ghost use Rattle.std.specs.Prelude.{◌≡◌, IfOk, IsTrue};
ghost use Rattle.mail_query.specs.declared.query.Query.{Query};
ghost use Rattle.mail_query.specs.Refusals.Before.{Start};
ghost use Rattle.mail_query.specs.Tokens.{tokens_of};
ghost use Rattle.mail_query.specs.Grammar.{ReadsAs};
ghost use Rattle.mail_query.specs.Limits.{IsWithinLimits};
ghost use Rattle.mail_query.specs.InForm.{in_form};
ghost use Rattle.mail_query.specs.Refusals.{first_refusal, refusal_of, Refuses, Gives};
ghost use Rattle.mail_query.specs.Reading.{reading_text};

use crate::error::QueryError;
use crate::query::Query;
use crate::reading::Reading;
use crate::token::next_token;
use mail_words::laws;
use std::alloc::Global;

/// The most bytes of a query's text.
const MAX_TEXT_LEN: usize = 4096;

/// The query that the text reads as, or the first refusal in it.
pub fn parse(alloc: Global, text: &[u8]) -> Result<Query, QueryError>
    // It is a query exactly where nothing in the text is refused, and else it is the first refusal.
    ensures exactly_refused { Refuses result (refusal_of text.now) }
    // The text reads as the query, and is within the limits.
    ensures reads { IfOk result (λ q. ReadsAs text.now q) }
    ensures limits { IfOk result (λ q. IsWithinLimits text.now) }
    ensures in_form { IfOk result (λ q. IsTrue (in_form q)) }
    // A text within the limits that reads as a query gives that query, so there is one at most.
    ensures only { (q : Query) → ReadsAs text.now q → IsWithinLimits text.now → Gives result q }
{
    if text.len() > MAX_TEXT_LEN {
        return Err(QueryError::Long);
    }
    laws::key_and_word_give_each_other();
    read(alloc, text)
}

// Reads the tokens from the left.
fn read(alloc: Global, text: &[u8]) -> Result<Query, QueryError>
    ensures refused { Refuses result (first_refusal Start 0 (tokens_of text.now)) }
    ensures reading { IfOk result (λ q. q ≡ reading_text text.now) }
{
    let mut reading = Reading::new(alloc);
    let mut rest = text;
    while let Some((token, after)) = next_token(rest) {
        reading.take(alloc, token)?;
        rest = after;
    }
    reading.finish()
}
