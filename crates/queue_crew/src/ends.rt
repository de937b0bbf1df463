//! A feeder or a taker in a place that a thread can borrow, and what it does there.
ghost use Rattle.std.specs.Prelude.{◌≡◌};

use job_queue::{Feeder, JobQueue, Taker};
use std::marker::{Brand, Model, PhantomData};
use std::sync::Wait;
use std::{mem, thread};

/// Names one queue.
pub(crate) trait Room {
    ghost use Rattle.job_queue.specs.Seen.{QueueId};

    ghost id: { QueueId };
}

impl Room for Brand {
    ghost use Rattle.std.specs.Prelude.{[]};
    ghost use Rattle.job_queue.specs.Seen.{queue_id};

    ghost id = { queue_id (record { words = 0; slots = 0; views_name = 0; atom = 0; block = 0; offset = 0; slot_names = [] }) 0 0 };
}

/// A feeder of this room's queue in a place that a thread can borrow, with the jobs that it is to store: so many, from one on.
pub(crate) struct Producer<B: Room> {
    feeder: Option<Feeder<u64>>,
    from: u64,
    jobs: u64,
    of: PhantomData<B>,
}

impl<B: Room> Model for Producer<B> {
    ghost use Rattle.std.specs.Prelude.{◌≡◌, ℕ, IsSomeAnd};

    ghost Value = { ℕ };

    ghost view = { λ _. 0 };

    ghost invariant = { λ p. IsSomeAnd p.feeder (λ f. f.queue ≡ B.id) };
}

/// A taker in such a place, with the jobs that it took, of so many that it is to take.
pub(crate) struct Consumer<B: Room> {
    taker: Option<Taker<u64>>,
    got: Vec<u64>,
    jobs: u64,
    of: PhantomData<B>,
}

impl<B: Room> Model for Consumer<B> {
    ghost use Rattle.std.specs.Prelude.{◌≡◌, ℕ, IsSomeAnd};

    ghost Value = { ℕ };

    ghost view = { λ _. 0 };

    ghost invariant = { λ c. IsSomeAnd c.taker (λ t. t.queue ≡ B.id) };
}

/// Stores so many jobs, from one on, and tries again where the queue is full.
fn feed<R: Wait>(rt: &R, queue: &JobQueue<u64>, feeder: &mut Feeder<u64>, from: u64, jobs: u64)
    requires { feeder.old.queue ≡ queue.now.id }
    ensures { feeder.new.queue ≡ queue.now.id }
{
    let mut next = 0;
    for _ in rt.forever() {
        if next >= jobs {
            break;
        }
        if feeder.room() == 0 {
            break;
        }
        match queue.push(rt, feeder, from.wrapping_add(next)) {
            Ok(()) => next += 1,
            Err(_) => thread::yield_now(),
        }
    }
}

/// Takes so many jobs, and tries again where the queue is empty.
fn take<R: Wait>(
    rt: &R,
    queue: &JobQueue<u64>,
    taker: &mut Taker<u64>,
    got: &mut Vec<u64>,
    jobs: u64,
)
    requires { taker.old.queue ≡ queue.now.id }
    ensures { taker.new.queue ≡ queue.now.id }
{
    let mut taken = 0;
    for _ in rt.forever() {
        if taken >= jobs {
            break;
        }
        match queue.pop(rt, taker) {
            Some(job) => {
                taken += 1;
                // Where memory is wanting the job is missing in the end; nobody waits for it.
                drop(got.push(job));
            }
            None => thread::yield_now(),
        }
    }
}

impl<B: Room> Producer<B> {
    pub(crate) fn new(feeder: Feeder<u64>, from: u64, jobs: u64) -> Producer<B>
        requires { feeder.queue ≡ B.id }
    {
        Producer {
            feeder: Some(feeder),
            from,
            jobs,
            of: PhantomData,
        }
    }

    pub(crate) fn run<R: Wait>(&mut self, rt: &R, queue: &JobQueue<u64>)
        requires { queue.now.id ≡ B.id }
    {
        let taken = self.feeder.take();
        let Some(mut feeder) = taken else {
            unreachable!()
        };
        feed(rt, queue, &mut feeder, self.from, self.jobs);
        let old = mem::replace(&mut self.feeder, Some(feeder));
        let None = old else { unreachable!() };
    }

    pub(crate) fn into_feeder(self) -> Feeder<u64>
        ensures { result.queue ≡ B.id }
    {
        let Producer {
            feeder,
            from: _,
            jobs: _,
            of: _,
        } = self;
        let Some(feeder) = feeder else { unreachable!() };
        feeder
    }
}

impl<B: Room> Consumer<B> {
    pub(crate) fn new(taker: Taker<u64>, got: Vec<u64>, jobs: u64) -> Consumer<B>
        requires { taker.queue ≡ B.id }
    {
        Consumer {
            taker: Some(taker),
            got,
            jobs,
            of: PhantomData,
        }
    }

    pub(crate) fn run<R: Wait>(&mut self, rt: &R, queue: &JobQueue<u64>)
        requires { queue.now.id ≡ B.id }
    {
        let taken = self.taker.take();
        let Some(mut taker) = taken else {
            unreachable!()
        };
        take(rt, queue, &mut taker, &mut self.got, self.jobs);
        let old = mem::replace(&mut self.taker, Some(taker));
        let None = old else { unreachable!() };
    }

    pub(crate) fn into_parts(self) -> (Taker<u64>, Vec<u64>)
        ensures { result.0.queue ≡ B.id }
    {
        let Consumer {
            taker,
            got,
            jobs: _,
            of: _,
        } = self;
        let Some(taker) = taker else { unreachable!() };
        (taker, got)
    }
}
