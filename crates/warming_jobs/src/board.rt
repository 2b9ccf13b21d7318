// What lies in the queue, and what each pass of it knows.
use crate::job::Job;
use crossbeam_queue::RuledArrayQueue;
use crossbeam_queue::protocol::{Join, Lesson, Outcome, Protocol, Split};
use std::alloc::Global;
use std::collections::LinkedList;

/// The jobs that the puller of this number has taken, in their order. No value of it is made.
pub struct Taken<J> {
    pub by: u32,
    pub jobs: LinkedList<J>,
}

/// What a pass knows. No value of it is made.
pub struct Known<J> {
    /// Whether this is the pusher's.
    pub pushes: bool,
    /// The jobs that the pusher has pushed, in their order.
    pub pushed: LinkedList<J>,
    /// How many pullers the pusher's pass was asked for.
    pub dealt: u32,
    /// What this puller has taken; at the pusher, what those have taken that were joined into it.
    pub taken: LinkedList<Taken<J>>,
}

pub struct Turns;

impl<J: Job> Protocol<J, Known<J>> for Turns {
    ghost use Rattle.warming_jobs.specs.Rule.{InTurn, opened};

    ghost holds = { InTurn J.generation };

    ghost first = { opened };
}

/// Warming jobs in their turn, for the threads that have the pusher or a puller.
#[derive(Drop)]
pub struct Jobs<J: Job> {
    pub(crate) queue: RuledArrayQueue<J, Known<J>, Turns, Global>,
}

// A job joins at the back; a full queue holds the last that were pushed.
pub(crate) struct Push;

impl<J: Job> Outcome<J, Known<J>> for Push {
    ghost use Rattle.warming_jobs.specs.Steps.{Pushed};

    ghost then = { Pushed };
}

impl<J: Job> Lesson<J, Known<J>> for Push {
    ghost use Rattle.warming_jobs.specs.Takes.{IsTheEndOf};

    ghost fact = { λ k left. IsTheEndOf k.pushed left };
}

// A job leaves at the front.
pub(crate) struct Take;

impl<J: Job> Outcome<J, Known<J>> for Take {
    ghost use Rattle.warming_jobs.specs.Steps.{Took};

    ghost then = { Took J.generation };
}

impl<J: Job> Lesson<J, Known<J>> for Take {
    ghost use Rattle.warming_jobs.specs.Steps.{HadTurns};

    ghost fact = { HadTurns J.generation };
}

// A job that is left leaves at the front.
pub(crate) struct Drain;

impl<J: Job> Outcome<J, Known<J>> for Drain {
    ghost use Rattle.warming_jobs.specs.Steps.{Took};

    ghost then = { Took J.generation };
}

impl<J: Job> Lesson<J, Known<J>> for Drain {
    ghost use Rattle.warming_jobs.specs.Steps.{IsSettled};

    ghost fact = { IsSettled J.generation };
}

// One puller more is dealt.
pub(crate) struct Deal;

impl<J> Split<Known<J>> for Deal {
    ghost use Rattle.warming_jobs.specs.Steps.{dealer, newcomer};

    ghost left = { dealer };

    ghost right = { newcomer };
}

// The pusher has what the puller has taken too.
pub(crate) struct Gather;

impl<J> Join<Known<J>> for Gather {
    ghost use Rattle.warming_jobs.specs.Steps.{joined, spent};

    ghost both = { joined };

    ghost spent = { spent };
}
