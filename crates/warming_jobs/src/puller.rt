ghost use Rattle.std.specs.Prelude.{◌≡◌, false, []};
ghost use Rattle.crossbeam_queue.specs.Passes.{view};
ghost use Rattle.warming_jobs.specs.Steps.{by_one, first_jobs};

use crate::board::{Jobs, Known, Take};
use crate::job::Job;
use crossbeam_queue::Pass;
use std::sync::Wait;

/// Who takes jobs, for one thread at a time.
#[derive(Drop)]
pub struct Puller<J> {
    pub(crate) number: u32,
    pub(crate) pass: Pass<J, Known<J>>,
    ghost idle: { pass.me.1 ≡ [] },
    ghost pulls: { (view pass).pushes ≡ false },
    ghost own: { (view pass).taken ≡ by_one number (first_jobs (view pass).taken) },
}

impl<J: Job> Puller<J> {
    ghost use Rattle.std.specs.Prelude.{◌≡◌, IfSome, IfNone};
    ghost use Rattle.warming_jobs.specs.Takes.{IsLater};
    ghost use Rattle.warming_jobs.specs.Passes.{queue_of, puller_queue, taken_of, IsSamePuller, HasTaken, FoundNone};

    /// The puller's number, from 0 on.
    pub fn number(&self) -> u32
        ensures { result ≡ self.now.number }
    {
        self.number
    }

    /// Takes the job that was pushed first of those that nobody has taken. `None` only where the queue was empty at a step of
    /// this call. It takes no memory. It may wait, but only for another thread that is in the middle of its own step.
    pub fn take<R: Wait>(&mut self, rt: &R, jobs: &Jobs<J>) -> Option<J>
        requires queue { puller_queue self.old ≡ queue_of jobs.now }
        ensures same { IsSamePuller self.old self.new }
        ensures taken { IfSome result (λ job. HasTaken self.old self.new job) }
        ensures later { IfSome result (λ job. IsLater J.generation job (taken_of self.old)) }
        ensures nothing { IfNone result (taken_of self.new ≡ taken_of self.old) }
        ensures empty { IfNone result (FoundNone J.generation self.old) }
    {
        jobs.queue.pop_as::<Take, R>(rt, &mut self.pass)
    }
}
