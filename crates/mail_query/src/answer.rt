//! The line of an answer.
ghost use Rattle.std.specs.Prelude.{◌≡◌, IfOk};
ghost use Rattle.mail_query.specs.Answers.{answer_line};

use mail_words::Memory;
use std::alloc::Global;

/// How many hits there are, a colon, each hit behind a space, and a line feed.
pub fn answer_line(alloc: Global, hits: &[u64]) -> Result<Vec<u8>, Memory>
    ensures { IfOk result (λ line. line.items ≡ answer_line hits.now) }
{
    let count = hits.len();
    let mut line = format!(in alloc; "{count}:")?;
    for hit in hits {
        write!(line, " {hit}")?;
    }
    line.push('\n')?;
    Ok(line.into_bytes())
}
