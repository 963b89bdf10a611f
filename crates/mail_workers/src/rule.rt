//! The rule of the queue: what its calls change of what a pass knows.
use crossbeam_queue::protocol::{Join, Lesson, Outcome, Protocol, Split};
use std::collections::LinkedList;

/// What a pass of the queue stands for. It is seen by contracts alone: no value of it is made.
pub struct JobView {
    /// The number that the queue was filled to.
    pub total: u64,
    /// What it drew, rising.
    pub drawn: LinkedList<u64>,
    /// The names of its share, as those of a pass of a memory.
    pub share: LinkedList<LinkedList<bool>>,
}

/// What holds of the queue and of all its passes.
pub struct JobRule;

impl Protocol<u64, JobView> for JobRule {
    ghost use Rattle.mail_workers.specs.Jobs.{IsJobs, first_view};

    ghost holds = { IsJobs };

    ghost first = { first_view };
}

/// A whole pass has put in the next number.
pub(crate) struct Filled;

impl Outcome<u64, JobView> for Filled {
    ghost use Rattle.mail_workers.specs.Jobs.{with_pushed};
    ghost use Rattle.std.specs.Prelude.{◌≡◌};

    ghost then = { λ v x w. w ≡ with_pushed v };
}

impl Lesson<u64, JobView> for Filled {
    ghost use Rattle.mail_workers.specs.Jobs.{HasRest};

    ghost fact = { HasRest };
}

/// A pass has taken the number at the front.
pub(crate) struct Drawn;

impl Outcome<u64, JobView> for Drawn {
    ghost use Rattle.mail_workers.specs.Jobs.{Drew};

    ghost then = { Drew };
}

impl Lesson<u64, JobView> for Drawn {
    ghost use Rattle.mail_workers.specs.Jobs.{HasRest};

    ghost fact = { HasRest };
}

/// Passes that are split and joined.
pub(crate) struct Halves;

impl Split<JobView> for Halves {
    ghost use Rattle.mail_workers.specs.Jobs.{left_view, right_view};

    ghost left = { left_view };

    ghost right = { right_view };
}

impl Join<JobView> for Halves {
    ghost use Rattle.mail_workers.specs.Jobs.{both_views, spent_view};

    ghost both = { both_views };

    ghost spent = { spent_view };
}

/// What a pass knows of its names.
pub(crate) struct Known;

impl Lesson<u64, JobView> for Known {
    ghost use Rattle.mail_workers.specs.Jobs.{HasNames};

    ghost fact = { HasNames };
}
