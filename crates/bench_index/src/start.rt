//! What a memory with an index is made with.
ghost use Rattle.std.specs.Prelude.{◌≡◌, ◌<◌, IfOk};
ghost use Rattle.tx_model.specs.Made.{IsMade};
ghost use Rattle.tx_heap.specs.Mail.{AllowsRegions, IsGoodMail, mail_budget};

use std::alloc::Global;
use tx_heap::{MailSense, opening};
use tx_model::{Memory, Region};

/// What a memory with an index is made with.
pub struct Start {
    pub sense: MailSense,
    pub words: Vec<u64>,
    pub regions: Vec<Region>,
    pub life: u64,
}

/// The opening of an index, and a life that is enough for it.
pub fn start_of(alloc: Global, sense: MailSense) -> Result<Start, Memory>
    ensures sense { IfOk result (λ start. start.sense ≡ sense) }
    ensures made { IfOk result (λ start. IsMade AllowsRegions IsGoodMail
        (record { sense = start.sense; opening = start.words.items; regions = start.regions.items; life = start.life })) }
    ensures life { IfOk result (λ start. mail_budget start.sense start.words.items < start.life) }
{
    let plan = sense.plan();
    let life = sense.lists().postings() + 2 * plan.segments + 1;
    let words = opening(alloc, &sense)?;
    let regions = plan.regions(alloc)?;
    Ok(Start {
        sense,
        words,
        regions,
        life,
    })
}
