//! A push and a pop of a queue of jobs.
ghost use Rattle.std.specs.Prelude.{◌≡◌, []};

use crate::fault::BenchFault;
use job_queue::{Feeder, JobQueue, Taker};
use queue_crew::exchange;
use std::alloc::Global;
use std::sync::Wait;
use std::thread::Threads;

/// How many jobs a queue has room for.
const CAPACITY: usize = 1_024;

/// How many jobs go through the queue.
const JOBS: u64 = 500_000;

/// Who uses the queue.
#[derive(Clone, Copy)]
pub enum Exchange {
    /// One thread that pushes a job and pops it again.
    Alone,
    /// Two threads that push, and two that pop.
    TwoAndTwo,
}

/// Pushes and pops each job, and tells how many came back.
fn pass_through<R: Wait>(
    rt: &R,
    queue: &JobQueue<u64>,
    feeder: &mut Feeder<u64>,
    taker: &mut Taker<u64>,
) -> u64
    requires feeder { feeder.old.queue ≡ queue.now.id }
    requires taker { taker.old.queue ≡ queue.now.id }
    ensures feeder { feeder.new.queue ≡ queue.now.id }
    ensures taker { taker.new.queue ≡ queue.now.id }
{
    let mut count: u64 = 0;
    for job in 0..JOBS {
        if feeder.room() > 0
            && queue.push(rt, feeder, job).is_ok()
            && queue.pop(rt, taker).is_some()
        {
            count = count.saturating_add(1);
        }
    }
    count
}

/// From the making of a queue to its settling, by one thread: the jobs that came through.
fn exchanged_alone<R: Wait>(rt: &R, alloc: Global) -> Result<u64, BenchFault> {
    let (queue, mut feeders, mut takers) = JobQueue::<u64>::new(alloc, CAPACITY, 1, 1)?;
    let Some(mut feeder) = feeders.pop() else {
        unreachable!()
    };
    let Some(mut taker) = takers.pop() else {
        unreachable!()
    };
    let count = pass_through(rt, &queue, &mut feeder, &mut taker);
    feeders.push_reserved(feeder);
    takers.push_reserved(taker);
    drop(queue.settle(rt, feeders, takers));
    Ok(count)
}

/// The same by four threads: the jobs that were taken.
fn exchanged_by_four<R: Threads + Wait + Sync>(rt: &R, alloc: Global) -> Result<u64, BenchFault> {
    let exchanged = exchange(rt, alloc, CAPACITY, 2, JOBS / 2)?;
    let taken = exchanged.got.iter().map(|jobs| jobs.len());
    Ok(taken.fold(0, |sum: u64, jobs| sum.saturating_add(jobs as u64)))
}

impl Exchange {
    /// One round: the jobs that went through a queue.
    pub fn round<R: Threads + Wait + Sync>(self, rt: &R, alloc: Global) -> Result<u64, BenchFault> {
        match self {
            Exchange::Alone => exchanged_alone(rt, alloc),
            Exchange::TwoAndTwo => exchanged_by_four(rt, alloc),
        }
    }

    /// How many jobs a round has.
    pub fn turns(self) -> u64 {
        JOBS
    }
}
