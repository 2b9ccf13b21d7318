use crate::NoMemory;
use crate::board::{Deal, Jobs, Known};
use crate::job::Job;
use crate::puller::Puller;
use crate::pusher::Pusher;
use crossbeam_queue::RuledArrayQueue;
use std::alloc::Global;

impl<J: Job> Jobs<J> {
    ghost use Rattle.std.specs.Prelude.{◌≡◌, ◌<◌, ◌≤◌, IfOk};
    ghost use Rattle.warming_jobs.specs.Passes.{queue_of, capacity_of};
    ghost use Rattle.warming_jobs.specs.Making.{IsNewPusher, AreNewPullers};

    /// An empty queue of this capacity, with its pusher and its pullers, which are numbered from 0 on. All memory is taken
    /// here.
    ///
    /// # Errors
    /// [`NoMemory`].
    pub fn make(
        alloc: Global,
        capacity: usize,
        pullers: u32,
    ) -> Result<(Jobs<J>, Pusher<J>, Vec<Puller<J>>), NoMemory>
        requires { 0 < capacity }
        ensures capacity { IfOk result (λ m. capacity_of m.0 ≡ capacity) }
        ensures pusher { IfOk result (λ m. IsNewPusher (queue_of m.0) pullers m.1) }
        ensures pullers { IfOk result (λ m. AreNewPullers (queue_of m.0) pullers m.2.items) }
    {
        let Ok(mut dealt) = Vec::with_capacity(alloc, pullers as usize) else {
            return Err(NoMemory);
        };
        let Ok(room) = Vec::with_capacity(alloc, capacity) else {
            return Err(NoMemory);
        };
        let Ok((queue, pass)) = RuledArrayQueue::ruled(alloc, capacity) else {
            return Err(NoMemory);
        };
        let jobs = Jobs { queue };
        let mut pusher = Pusher { pass, room };
        for number in 0..pullers {
            dealt.push_reserved(pusher.deal(&jobs, number));
        }
        Ok((jobs, pusher, dealt))
    }
}

impl<J: Job> Pusher<J> {
    ghost use Rattle.std.specs.Prelude.{◌≡◌, ◌+◌, ◌<◌, ◌^◌};
    ghost use Rattle.warming_jobs.specs.Passes.{queue_of, pusher_queue, pullers_of};
    ghost use Rattle.warming_jobs.specs.Making.{IsNewPusher, IsNewPuller};

    // The next puller.
    fn deal(&mut self, jobs: &Jobs<J>, number: u32) -> Puller<J>
        requires { IsNewPusher (queue_of jobs.now) number self.old }
        ensures pusher { IsNewPusher (queue_of jobs.now) (number + 1) self.new }
        ensures puller { IsNewPuller (queue_of jobs.now) number result }
    {
        let pass = jobs.queue.another::<Deal>(&mut self.pass);
        Puller { number, pass }
    }
}
