//! Jobs through a queue: worked rows on one thread.
ghost use Rattle.std.specs.Prelude.{◌≡◌};

use crate::asserts::holds;
use job_queue::{Feeder, JobQueue, Taker};
use std::alloc::Global;
use std::process::Abort;
use std::rt::HostRuntime;
use std::sync::Wait;

/// What is asked of a queue with one feeder and one taker.
#[derive(Drop, Copy, Clone)]
enum Step {
    Push(u64),
    Pop,
}

/// What it answers.
#[derive(Drop, PartialEq)]
enum Answer {
    Stored,
    Back(u64),
    Got(u64),
    Empty,
    NoRoom,
}

fn step_answer<R: Wait>(
    rt: &R,
    queue: &JobQueue<u64>,
    feeder: &mut Feeder<u64>,
    taker: &mut Taker<u64>,
    step: Step,
) -> Answer
    requires feeder { feeder.old.queue ≡ queue.now.id }
    requires taker { taker.old.queue ≡ queue.now.id }
    ensures feeder { feeder.new.queue ≡ queue.now.id }
    ensures taker { taker.new.queue ≡ queue.now.id }
{
    match step {
        Step::Push(job) => {
            if feeder.room() == 0 {
                return Answer::NoRoom;
            }
            match queue.push(rt, feeder, job) {
                Ok(()) => Answer::Stored,
                Err(job) => Answer::Back(job),
            }
        }
        Step::Pop => match queue.pop(rt, taker) {
            Some(job) => Answer::Got(job),
            None => Answer::Empty,
        },
    }
}

/// Whether each step is answered so.
fn answers_so<R: Wait>(
    rt: &R,
    queue: &JobQueue<u64>,
    feeder: &mut Feeder<u64>,
    taker: &mut Taker<u64>,
    rows: &[(Step, Answer)],
) -> bool
    requires feeder { feeder.old.queue ≡ queue.now.id }
    requires taker { taker.old.queue ≡ queue.now.id }
    ensures feeder { feeder.new.queue ≡ queue.now.id }
    ensures taker { taker.new.queue ≡ queue.now.id }
{
    let mut all = true;
    for row in rows {
        if step_answer(rt, queue, feeder, taker, row.0) != row.1 {
            all = false;
        }
    }
    all
}

/// Whether each step is answered so by a new queue, and what settling it gives.
fn ran<R: Wait + Abort>(rt: &R, alloc: Global, rows: &[(Step, Answer)]) -> (bool, Result<(), u64>) {
    let Ok((queue, mut feeders, mut takers)) = JobQueue::<u64>::new(alloc, 2, 1, 1) else {
        panic!(rt; "no memory");
    };
    let Some(mut feeder) = feeders.pop() else {
        unreachable!()
    };
    let Some(mut taker) = takers.pop() else {
        unreachable!()
    };
    let so = answers_so(rt, &queue, &mut feeder, &mut taker, rows);
    feeders.push_reserved(feeder);
    takers.push_reserved(taker);
    (so, queue.settle(rt, feeders, takers))
}

#[test]
fn full_queue_gives_the_job_back(rt: HostRuntime) {
    let rows = [
        (Step::Push(1), Answer::Stored),
        (Step::Push(2), Answer::Stored),
        (Step::Push(3), Answer::Back(3)),
        (Step::Pop, Answer::Got(1)),
        (Step::Pop, Answer::Got(2)),
        (Step::Pop, Answer::Empty),
    ];
    let (so, settled) = ran(&rt, rt.alloc(), &rows);
    holds(&rt, so && settled == Ok(()));
}

#[test]
fn settling_gives_what_is_left(rt: HostRuntime) {
    let (so, settled) = ran(&rt, rt.alloc(), &[(Step::Push(4), Answer::Stored)]);
    holds(&rt, so && settled == Err(4));
    let rows = [
        (Step::Push(5), Answer::Stored),
        (Step::Push(6), Answer::Stored),
        (Step::Pop, Answer::Got(5)),
        (Step::Push(7), Answer::Stored),
    ];
    let (so, settled) = ran(&rt, rt.alloc(), &rows);
    holds(&rt, so && settled == Err(6));
}

#[test]
fn pop_that_always_answers_none_is_told(rt: HostRuntime) {
    let rows = [
        (Step::Pop, Answer::Empty),
        (Step::Push(8), Answer::Stored),
        (Step::Pop, Answer::Got(8)),
    ];
    let (so, settled) = ran(&rt, rt.alloc(), &rows);
    holds(&rt, so && settled == Ok(()));
}
