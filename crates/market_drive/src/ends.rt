//! What stays of a queue while its takers are away.
ghost use Rattle.std.specs.Prelude.{◌≡◌, ◌+◌, ◌<◌, ◌≤◌, ℕ, [], ◌∷◌, ◌++◌, length, IfOk};
ghost use Rattle.std.specs.List.{sum_by};
ghost use Rattle.plan_jobs.specs.declared.task.Job.{Job as OfJob};
ghost use Rattle.market_drive.specs.Jobs.{IsUnfed, taken_by};
ghost use Rattle.market_drive.specs.Racks.{unfed};

use job_queue::{Feeder, JobQueue, Taker};
use plan_jobs::{Job, PlannedJob};
use std::alloc::{AllocError, Global};
use std::marker::Model;
use std::sync::Wait;
use worker_main::Station;

/// A queue's feeder, and the room to which its takers come back.
pub(crate) struct Ends {
    feeder: Feeder<Job>,
    feeders: Vec<Feeder<Job>>,
    takers: Vec<Taker<Job>>,
}

impl Model for Ends {
    ghost use Rattle.std.specs.Prelude.{◌≡◌, ◌≤◌, vec_len, vec_capacity};
    ghost use Rattle.std.specs.List.{All};
    ghost use Rattle.job_queue.specs.Seen.{OfTaker};
    ghost use Rattle.plan_jobs.specs.declared.task.Job.{Job};
    ghost use Rattle.market_drive.specs.Racks.{OfEnds};

    ghost Value = { OfEnds };

    ghost view = { λ e. record { queue = e.feeder.queue; here = vec_len e.takers; room = vec_capacity e.takers; stored = e.feeder.stored; takers = e.takers.items } };

    ghost invariant = { λ e. (vec_len e.feeders ≡ 0) × (1 ≤ vec_capacity e.feeders) × All (λ (t : OfTaker Job). t.queue ≡ e.feeder.queue) e.takers.items };
}

impl Ends {
    /// Stores a job in the queue of its arena's station, which has room for all of the arena's jobs.
    pub(crate) fn feed<R: Wait>(
        &mut self,
        rt: &R,
        station: &Station,
        number: u32,
        planned: &PlannedJob,
    )
        requires queue { self.old.queue ≡ station.now.queue.id }
        requires own { planned.now.arena ≡ station.now.arena }
        requires alone { self.old.queue.feeders ≡ 1 }
        requires room { (length self.old.stored < station.now.queue.capacity) × (length self.old.stored < 1048576) }
        ensures stored { self.new.stored ≡ self.old.stored ++ (record { number = number; task = planned.now.task }) ∷ [] }
        ensures same { unfed self.new ≡ unfed self.old }
    {
        let job = Job {
            number,
            task: planned.task,
        };
        match station.queue.push(rt, &mut self.feeder, job) {
            Ok(()) => {}
            Err(_) => unreachable!(),
        }
    }

    /// Takes a taker out.
    pub(crate) fn take(&mut self) -> Taker<Job>
        requires { 0 < self.old.here }
        ensures taker { result.queue ≡ self.old.queue }
        ensures same { (self.new.queue ≡ self.old.queue) × (self.new.room ≡ self.old.room) × (self.new.stored ≡ self.old.stored) }
        ensures left { self.new.here + 1 ≡ self.old.here }
        ensures takers { self.old.takers ≡ self.new.takers ++ result ∷ [] }
    {
        let Some(taker) = self.takers.pop() else {
            unreachable!()
        };
        taker
    }

    /// Puts a taker back.
    pub(crate) fn put(&mut self, taker: Taker<Job>)
        requires own { taker.queue ≡ self.old.queue }
        requires room { self.old.here < self.old.room }
        ensures same { (self.new.queue ≡ self.old.queue) × (self.new.room ≡ self.old.room) × (self.new.stored ≡ self.old.stored) }
        ensures more { self.new.here ≡ self.old.here + 1 }
        ensures takers { self.new.takers ≡ self.old.takers ++ taker ∷ [] }
    {
        self.takers.push_reserved(taker);
    }

    /// The end of a queue whose takers are all here: they took no job that it was not fed with, and none twice. A job that is left
    /// in it is missing among the answers.
    pub(crate) fn settle<R: Wait>(self, rt: &R, queue: JobQueue<Job>)
        requires queue { queue.id ≡ self.queue }
        requires all { (self.queue.feeders ≡ 1) × (self.here ≡ self.queue.takers) }
        ensures once { (weigh : OfJob → ℕ) → sum_by weigh (taken_by self.takers) ≤ sum_by weigh self.stored }
    {
        let Ends {
            feeder,
            mut feeders,
            takers,
        } = self;
        feeders.push_reserved(feeder);
        drop(queue.settle(rt, feeders, takers));
    }
}

/// An empty queue with room for so many jobs, and its ends, with a taker for each of so many workers.
pub(crate) fn open_queue(
    alloc: Global,
    capacity: usize,
    workers: usize,
) -> Result<(JobQueue<Job>, Ends), AllocError>
    requires capacity { (0 < capacity) × (capacity ≤ 65536) }
    requires workers { (0 < workers) × (workers ≤ 16) }
    ensures capacity { IfOk result (λ q. q.0.capacity ≡ capacity) }
    ensures same { IfOk result (λ q. q.1.queue ≡ q.0.id) }
    ensures all { IfOk result (λ q. (q.1.queue.feeders ≡ 1) × (q.1.queue.takers ≡ workers) × (q.1.here ≡ workers) × (workers ≤ q.1.room)) }
    ensures unused { IfOk result (λ q. IsUnfed q.1 × (taken_by q.1.takers ≡ [])) }
{
    let (queue, mut feeders, takers) = JobQueue::new(alloc, capacity, 1, workers)?;
    let Some(feeder) = feeders.pop() else {
        unreachable!()
    };
    let ends = Ends {
        feeder,
        feeders,
        takers,
    };
    Ok((queue, ends))
}
