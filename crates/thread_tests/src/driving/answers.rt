//! What tasks are worth, and answers that are gathered.

use crate::asserts::{holds, same};
use market_types::ArenaId;
use plan_jobs::{Done, Job, PlannedJob, Task, outcome_of};
use std::alloc::Global;
use std::process::Abort;
use std::rt::HostRuntime;

/// The jobs of a plan of two arenas.
pub(crate) fn planned() -> [PlannedJob; 3] {
    [
        PlannedJob {
            arena: ArenaId::new(1),
            task: Task::Sum(10),
        },
        PlannedJob {
            arena: ArenaId::new(1),
            task: Task::Digits(9081),
        },
        PlannedJob {
            arena: ArenaId::new(2),
            task: Task::Sum(100),
        },
    ]
}

/// The answers to these jobs, each of which a worker takes by its number and its task.
fn answers(rt: &impl Abort, alloc: Global, taken: &[Job]) -> Vec<Done> {
    let mut done = Vec::new(alloc);
    for job in taken {
        let pushed = done.push(job.run());
        holds(rt, pushed.is_ok());
    }
    done
}

/// The plan's job of this number, as a worker takes it.
fn taken(number: u32) -> Job {
    let task = match number {
        1 => Task::Sum(10),
        2 => Task::Digits(9081),
        _ => Task::Sum(100),
    };
    Job { number, task }
}

#[test]
fn a_task_has_its_value(rt: HostRuntime) {
    same(&rt, Task::Sum(0).run(), 0);
    same(&rt, Task::Sum(1).run(), 1);
    same(&rt, Task::Sum(10).run(), 55);
    same(&rt, Task::Sum(100).run(), 5050);
    same(&rt, Task::Sum(1_000_000).run(), 500_000_500_000);
    same(&rt, Task::Digits(0).run(), 0);
    same(&rt, Task::Digits(9).run(), 9);
    same(&rt, Task::Digits(10).run(), 1);
    same(&rt, Task::Digits(9081).run(), 18);
    same(&rt, Task::Digits(u64::MAX).run(), 87);
}

#[test]
fn answers_come_out_in_order_of_number(rt: HostRuntime) {
    let done = answers(&rt, rt.alloc(), &[taken(3), taken(1), taken(2)]);
    let Ok(gathered) = outcome_of(&planned(), done) else {
        panic!(&rt; "the answers are no outcome");
    };
    for (done, due) in gathered.iter().zip([(1, 55), (2, 18), (3, 5050)]) {
        same(&rt, done.number, due.0);
        same(&rt, done.value, due.1);
    }
    same(&rt, gathered.len(), 3);
}
