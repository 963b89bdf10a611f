//! The queue of message numbers, and the passes by which workers draw from it.
ghost use Rattle.std.specs.Prelude.{◌≡◌, [], ◌∷◌, IsOk, IfOk, None, IfSome};
ghost use Rattle.std.specs.List.{range_with_len};
ghost use Rattle.tx_model.specs.Shares.{joined};
ghost use Rattle.mail_workers.specs.JobPasses.{IsJobPassOf, job_view};
ghost use Rattle.mail_workers.specs.Jobs.{left_view, right_view, both_views, IsWholeJob, Drew};

use crate::rule::{Drawn, Filled, Halves, JobRule, JobView, Known};
use crossbeam_queue::{Pass, RuledArrayQueue};
use std::alloc::Global;
use std::sync::Wait;
use tx_model::Memory;
use tx_model::laws::{joined_shares, merged_stamps, rejoined_share, split_shares};

/// The numbers of the messages that nobody has drawn yet, in order.
#[derive(Drop)]
pub struct Jobs {
    queue: RuledArrayQueue<u64, JobView, JobRule>,
}

/// What a worker draws by: it knows which numbers were drawn by it. A pass that is let go takes its names along, and then
/// no other is whole again.
#[derive(Drop)]
pub struct JobPass {
    seat: Pass<u64, JobView>,
}

impl Jobs {
    /// A queue of the numbers from 1 to `messages`, and its first pass, which is whole.
    pub fn fill<R: Wait>(rt: &R, alloc: Global, messages: u64) -> Result<(Jobs, JobPass), Memory>
        ensures of { IfOk result (λ made. IsJobPassOf made.0 made.1) }
        ensures view { IfOk result (λ made. job_view made.1 ≡ record { total = messages; drawn = []; share = [] ∷ [] }) }
    {
        let room = if messages == 0 { 1 } else { messages as usize };
        let Ok((queue, mut seat)) = RuledArrayQueue::ruled(alloc, room) else {
            return Err(Memory);
        };
        for number in 0..messages {
            let Ok(()) = queue.push_as::<Filled, R>(rt, &mut seat, number + 1) else {
                unreachable!()
            };
        }
        Ok((Jobs { queue }, JobPass { seat }))
    }

    /// Takes the number at the front of the queue.
    ///
    /// A whole pass to which none is answered has drawn all. To another pass it says nothing that lasts: the queue was
    /// empty at a moment of this call.
    pub fn draw<R: Wait>(&self, rt: &R, pass: &mut JobPass) -> Option<u64>
        requires of { IsJobPassOf self.now pass.old }
        ensures of { IsJobPassOf self.now pass.new }
        ensures drew { IfSome result (λ number. Drew (job_view pass.old) number (job_view pass.new)) }
        ensures none { result ≡ None → job_view pass.new ≡ job_view pass.old }
        ensures all { result ≡ None → IsWholeJob (job_view pass.old) → (job_view pass.old).drawn ≡ range_with_len 1 (job_view pass.old).total }
    {
        self.queue.pop_as::<Drawn, R>(rt, &mut pass.seat)
    }

    /// A further pass, which has drawn nothing. It takes no memory.
    pub fn split<R: Wait>(&self, _rt: &R, pass: &mut JobPass) -> Result<JobPass, Memory>
        requires of { IsJobPassOf self.now pass.old }
        ensures succeeds { IsOk result }
        ensures of { IfOk result (λ other. IsJobPassOf self.now pass.new × IsJobPassOf self.now other) }
        ensures kept { IfOk result (λ other. job_view pass.new ≡ left_view (job_view pass.old)) }
        ensures given { IfOk result (λ other. job_view other ≡ right_view (job_view pass.old)) }
        ensures rejoined { IfOk result (λ other. joined (job_view pass.new).share (job_view other).share ≡ (job_view pass.old).share) }
    {
        split_shares();
        rejoined_share();
        self.queue.learn_as::<Known>(&mut pass.seat);
        let seat = self.queue.another::<Halves>(&mut pass.seat);
        Ok(JobPass { seat })
    }

    /// One pass of two: it has drawn what both have.
    pub fn join<R: Wait>(&self, _rt: &R, pass: &mut JobPass, other: JobPass)
        requires of { IsJobPassOf self.now pass.old × IsJobPassOf self.now other }
        ensures of { IsJobPassOf self.now pass.new }
        ensures joined { job_view pass.new ≡ both_views (job_view pass.old) (job_view other) }
    {
        joined_shares();
        merged_stamps();
        let JobPass { seat } = other;
        self.queue.absorb::<Halves>(&mut pass.seat, seat);
    }
}
