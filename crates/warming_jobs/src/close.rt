use crate::board::{Deal, Drain, Gather, Jobs, Known};
use crate::job::Job;
use crate::puller::Puller;
use crate::pusher::Pusher;
use crossbeam_queue::Pass;
use std::sync::Wait;

impl<J: Job> Jobs<J> {
    ghost use Rattle.std.specs.Prelude.{◌≡◌, ◌≤◌, true, [], vec_capacity};
    ghost use Rattle.crossbeam_queue.specs.Passes.{view, IsPassOf};
    ghost use Rattle.warming_jobs.specs.Steps.{IsSettled};
    ghost use Rattle.warming_jobs.specs.Passes.{capacity_of};
    ghost use Rattle.warming_jobs.specs.Closing.{AreAll, IsHandedOut, HasAll};

    /// Ends the queue, and gives the jobs that are left in it, in their order. It is given the queue's pusher and all its
    /// pullers, in the order of their numbers. It takes no memory.
    pub fn close<R: Wait>(self, rt: &R, pusher: Pusher<J>, pullers: Vec<Puller<J>>) -> Vec<J>
        requires { AreAll self pusher pullers.items }
        ensures { IsHandedOut J.generation pusher pullers.items result.items }
    {
        let Pusher { mut pass, room } = pusher;
        let mut pullers = pullers;
        while let Some(puller) = pullers.pop() {
            let Puller {
                number: _,
                pass: own,
            } = puller;
            self.queue.absorb::<Gather>(&mut pass, own);
        }
        self.drain(rt, pass, room)
    }

    // Takes all that is left, as one puller more.
    fn drain<R: Wait>(&self, rt: &R, mut pass: Pass<J, Known<J>>, mut left: Vec<J>) -> Vec<J>
        requires queue { IsPassOf self.now.queue pass }
        requires pushes { (view pass).pushes ≡ true }
        requires all { HasAll (view pass) }
        requires empty { left.items ≡ [] }
        requires room { capacity_of self.now ≤ vec_capacity left }
        ensures { IsSettled J.generation (view pass) result.items }
    {
        let count = self.queue.len_as::<Drain, R>(rt, &mut pass);
        let own = self.queue.another::<Deal>(&mut pass);
        self.queue.absorb::<Gather>(&mut pass, own);
        while left.len() < count {
            let Some(job) = self.queue.pop_as::<Drain, R>(rt, &mut pass) else {
                unreachable!()
            };
            left.push_reserved(job);
        }
        self.queue.learn_as::<Drain>(&mut pass);
        left
    }
}
