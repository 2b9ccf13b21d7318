ghost use Rattle.std.specs.Prelude.{◌≡◌, ◌≤◌, true, [], vec_capacity};
ghost use Rattle.crossbeam_queue.specs.Passes.{view};

use crate::board::{Jobs, Known, Push};
use crate::job::Job;
use crossbeam_queue::Pass;
use std::sync::Wait;
use std::thread::yield_now;

/// Who pushes jobs. There is one for each queue.
#[derive(Drop)]
pub struct Pusher<J> {
    pub(crate) pass: Pass<J, Known<J>>,
    // For the jobs that are left when the queue is closed.
    pub(crate) room: Vec<J>,
    ghost idle: { pass.me.1 ≡ [] },
    ghost pushes: { (view pass).pushes ≡ true },
    ghost takes_nothing: { (view pass).taken ≡ [] },
    ghost empty: { room.items ≡ [] },
    ghost roomy: { pass.table_id.slots ≤ vec_capacity room },
}

impl<J: Job> Pusher<J> {
    ghost use Rattle.std.specs.Prelude.{◌≡◌, IfOk, IfErr};
    ghost use Rattle.warming_jobs.specs.Takes.{IsLater};
    ghost use Rattle.warming_jobs.specs.Passes.{queue_of, pusher_queue, pushed_of, IsSamePusher, HasPushed, FoundFull};

    /// Pushes a job of a later generation than all before. It takes no memory. It may wait, but only for another thread that
    /// is in the middle of its own step.
    ///
    /// # Errors
    /// The same job, only where the queue was full at a step of this call.
    pub fn push<R: Wait>(&mut self, rt: &R, jobs: &Jobs<J>, job: J) -> Result<(), J>
        requires queue { pusher_queue self.old ≡ queue_of jobs.now }
        requires later { IsLater J.generation job (pushed_of self.old) }
        ensures same { IsSamePusher self.old self.new }
        ensures pushed { IfOk result (λ _. HasPushed self.old self.new job) }
        ensures back { IfErr result (λ back. back ≡ job) }
        ensures nothing { IfErr result (λ _. pushed_of self.new ≡ pushed_of self.old) }
        ensures full { IfErr result (λ _. FoundFull jobs.now self.old) }
    {
        jobs.queue.push_as::<Push, R>(rt, &mut self.pass, job)
    }

    /// Pushes a job of a later generation than all before, and waits as long as the queue is full. It takes no memory. It may
    /// wait for ever.
    pub fn push_waiting<R: Wait>(&mut self, rt: &R, jobs: &Jobs<J>, job: J)
        requires queue { pusher_queue self.old ≡ queue_of jobs.now }
        requires later { IsLater J.generation job (pushed_of self.old) }
        ensures { HasPushed self.old self.new job }
    {
        let mut job = job;
        for _ in rt.forever() {
            match self.push(rt, jobs, job) {
                Ok(()) => return,
                Err(back) => job = back,
            }
            yield_now();
        }
        unreachable!()
    }
}
