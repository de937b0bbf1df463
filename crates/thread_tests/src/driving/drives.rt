//! Plans that workers drive, each in a thread of its own.
ghost use Rattle.std.specs.Prelude.{◌<◌, ◌≤◌};

use crate::asserts::{holds, same};
use drive_plan::{Plan, read_plan};
use edit_history::CallFault;
use market_drive::{DriveFault, drive, drive_to_close, gather_done};
use market_types::ArenaId;
use plan_jobs::{Done, Job, Task};
use std::alloc::{AllocError, Global};
use std::process::Abort;
use std::rt::HostRuntime;
use std::sync::Wait;
use std::sync::atomic::{AtomicU64, Ordering};
use std::thread::Threads;
use worker_main::{Ended, Gate, OpenGate};

const PLAN: &[u8] = b"\
market 8 64
arena 8 1 normal 2 0
arena 8 1 low 1 0
job 1 sum 10
job 1 digits 9081
job 2 sum 100
";

/// Three arenas with jobs by turns, so that each queue is filled while the others are.
const BY_TURNS: &[u8] = b"\
market 8 64
arena 8 1 normal 2 0
arena 8 1 low 1 0
arena 8 1 high 1 0
job 3 sum 1
job 1 sum 2
job 2 sum 3
job 3 sum 4
job 1 sum 5
job 2 digits 9081
";

/// One arena with two jobs, in need of two workers.
const TWO_JOBS: &[u8] = b"\
market 8 64
arena 8 1 normal 2 0
job 1 sum 10
job 1 digits 9081
";

/// The same under a base of one thread, where a control lets two workers in.
const TWO_BY_CONTROL: &[u8] = b"\
market 1 64
arena 8 1 normal 2 0
control 3
job 1 sum 10
job 1 digits 9081
";

/// The same where the market has one worker.
const TWO_FOR_ONE: &[u8] = b"\
market 2 64
arena 8 1 normal 2 0
job 1 sum 10
job 1 digits 9081
";

/// Eight arenas that ask for as many workers as can be asked for, and a job for the last.
const MUCH_WANTED: &[u8] = b"\
market 8 64
arena 8 1 normal 65535 0
arena 8 1 normal 65535 0
arena 8 1 normal 65535 0
arena 8 1 normal 65535 0
arena 8 1 normal 65535 0
arena 8 1 normal 65535 0
arena 8 1 normal 65535 0
arena 8 1 normal 65535 0
job 8 sum 10
";

/// Holds job 1 until job 2 is done.
#[derive(Drop)]
struct SecondFirst {
    done: AtomicU64,
}

impl Gate for SecondFirst {
    fn before(&self, number: u32, earlier: u64) -> bool {
        let _ = earlier;
        number != 1 || self.done.load(Ordering::SeqCst) == 1
    }

    fn after(&self, number: u32) {
        if number == 2 {
            self.done.store(1, Ordering::SeqCst);
        }
    }
}

/// Lets every job through but one, and counts the questions about that one.
#[derive(Drop)]
struct AllBut {
    shut: u32,
    asked: AtomicU64,
}

impl Gate for AllBut {
    fn before(&self, number: u32, earlier: u64) -> bool {
        let _ = earlier;
        if number == self.shut {
            self.asked.fetch_add(1, Ordering::SeqCst);
        }
        number != self.shut
    }

    fn after(&self, number: u32) {
        let _ = number;
    }
}

/// The answers of so many workers to the plan are these.
fn is_answered<R: Threads + Wait + Sync + Abort>(
    rt: &R,
    alloc: Global,
    text: &[u8],
    workers: usize,
    due: &[(u32, u64)],
)
    requires { (0 < workers) × (workers ≤ 16) }
{
    let Ok(done) = drive(rt, alloc, text, workers, &OpenGate) else {
        panic!(rt; "no answers");
    };
    same(rt, done.len(), due.len());
    for (done, due) in done.iter().zip(due.iter()) {
        same(rt, (done.number, done.value), *due);
    }
    drop(done);
}

/// So many workers give no answers to the plan, for this reason.
fn is_refused<G: Gate + Sync, R: Threads + Wait + Sync + Abort>(
    rt: &R,
    alloc: Global,
    text: &[u8],
    workers: usize,
    gate: &G,
    due: DriveFault,
)
    requires { (0 < workers) × (workers ≤ 16) }
{
    let Err(fault) = drive(rt, alloc, text, workers, gate) else {
        panic!(rt; "answers");
    };
    same(rt, fault, due);
}

#[test]
fn each_number_of_workers_gives_the_same_answers(rt: HostRuntime) {
    let due = [(1, 55), (2, 18), (3, 5050)];
    is_answered(&rt, rt.alloc(), PLAN, 1, &due);
    is_answered(&rt, rt.alloc(), PLAN, 2, &due);
    is_answered(&rt, rt.alloc(), PLAN, 16, &due);
}

#[test]
fn arenas_by_turns_are_driven_again_and_again(rt: HostRuntime) {
    let due = [(1, 1), (2, 3), (3, 6), (4, 10), (5, 15), (6, 18)];
    for _ in 0..100 {
        is_answered(&rt, rt.alloc(), BY_TURNS, 1, &due);
        is_answered(&rt, rt.alloc(), BY_TURNS, 4, &due);
    }
}

/// Job 1 of two, which waits for job 2, is done.
fn meet<R: Threads + Wait + Sync + Abort>(rt: &R, alloc: Global, text: &[u8]) {
    let gate = SecondFirst {
        done: AtomicU64::new(0),
    };
    let Ok(done) = drive(rt, alloc, text, 2, &gate) else {
        panic!(rt; "the jobs did not meet");
    };
    same(rt, done.len(), 2);
    same(
        rt,
        (done[0].number, done[0].value, done[1].number, done[1].value),
        (1, 55, 2, 18),
    );
    drop(done);
}

/// This refuses a worker that holds the lock through its job, one thread that runs all jobs, and an end that is always reported as out of
/// memory or as unfinished.
#[test]
fn two_jobs_meet(rt: HostRuntime) {
    meet(&rt, rt.alloc(), TWO_JOBS);
}

/// This refuses a market whose hard limit is its base.
#[test]
fn two_jobs_meet_where_a_control_allows_more_than_the_base(rt: HostRuntime) {
    meet(&rt, rt.alloc(), TWO_BY_CONTROL);
}

/// This refuses a market whose base is its hard limit.
#[test]
fn two_jobs_do_not_meet_where_the_market_has_one_worker(rt: HostRuntime) {
    let gate = SecondFirst {
        done: AtomicU64::new(0),
    };
    let due = DriveFault::Unfinished;
    is_refused(&rt, rt.alloc(), TWO_FOR_ONE, 2, &gate, due);
}

/// This refuses a worker that gives less of a request back than was made, which comes again until the history is full.
#[test]
fn what_was_asked_for_is_given_back_at_once(rt: HostRuntime) {
    is_answered(&rt, rt.alloc(), MUCH_WANTED, 2, &[(1, 55)]);
}

#[test]
fn a_gate_that_stays_shut_leaves_the_plan_unfinished(rt: HostRuntime) {
    let gate = AllBut {
        shut: 1,
        asked: AtomicU64::new(0),
    };
    is_refused(&rt, rt.alloc(), TWO_JOBS, 2, &gate, DriveFault::Unfinished);
    same(&rt, gate.asked.load(Ordering::SeqCst), 1_000_000);
}

#[test]
fn no_plan_is_driven_that_does_not_fit(rt: HostRuntime) {
    is_refused(&rt, rt.alloc(), b"", 1, &OpenGate, DriveFault::BadPlan(1));
    let text = b"\
market 8 64
arena 8 1 normal 2 0
arena 8 1 low 1 0
job 1 sum 10
job 1 digits 9081
job 3 sum 100
";
    is_refused(&rt, rt.alloc(), text, 4, &OpenGate, DriveFault::BadPlan(6));
}

#[test]
fn an_arena_that_gets_no_worker_is_told_before_any_job(rt: HostRuntime) {
    let text = b"\
market 8 64
arena 2 2 normal 5 0
job 1 sum 10
";
    let due = DriveFault::Unservable(ArenaId::new(1));
    let gate = AllBut {
        shut: 1,
        asked: AtomicU64::new(0),
    };
    is_refused(&rt, rt.alloc(), text, 4, &gate, due);
    same(&rt, gate.asked.load(Ordering::SeqCst), 0);
}

#[test]
fn a_plan_without_jobs_has_no_answers(rt: HostRuntime) {
    let text = b"\
market 8 64
arena 8 1 normal 2 0
arena 8 1 low 1 0
";
    is_answered(&rt, rt.alloc(), text, 4, &[]);
}

/// The largest plan of so many arenas: 256 controls, and 65,536 jobs for the arenas by turns. The arenas stand on three levels, and are
/// each in need of two workers.
fn long_plan(alloc: Global, arenas: u32) -> Result<Vec<u8>, AllocError>
    requires some { 0 < arenas }
{
    let mut text = Vec::new(alloc);
    text.extend_from_slice(b"market 8 64\n")?;
    for arena in 0..arenas {
        let line = match arena % 3 {
            0 => b"arena 8 1 high 2 0\n".as_slice(),
            1 => b"arena 8 1 normal 2 0\n".as_slice(),
            _ => b"arena 8 1 low 2 0\n".as_slice(),
        };
        text.extend_from_slice(line)?;
    }
    for _ in 0..256 {
        text.extend_from_slice(b"control 9\n")?;
    }
    for job in 0..65_536u32 {
        let arena = (job % arenas).wrapping_add(1);
        let line = format!(in alloc; "job {arena} digits {job}\n")?;
        text.extend_from_slice(line.as_bytes())?;
    }
    Ok(text)
}

/// The answers of so many workers to all 65,536 jobs.
fn all_answers<R: Threads + Wait + Sync + Abort>(
    rt: &R,
    alloc: Global,
    text: &[u8],
    workers: usize,
) -> Vec<Done>
    requires { (0 < workers) × (workers ≤ 16) }
{
    let Ok(done) = drive(rt, alloc, text, workers, &OpenGate) else {
        panic!(rt; "no answers");
    };
    same(rt, done.len(), 65_536);
    done
}

/// Each answer has the number and the value of the other at its place.
fn are_alike(rt: &impl Abort, some: &[Done], others: &[Done]) {
    for (one, other) in some.iter().zip(others.iter()) {
        same(rt, (one.number, one.value), (other.number, other.value));
    }
}

/// Sixteen workers answer the jobs of so many arenas as one does.
fn is_answered_alike<R: Threads + Wait + Sync + Abort>(rt: &R, alloc: Global, arenas: u32)
    requires some { 0 < arenas }
{
    let Ok(text) = long_plan(alloc, arenas) else {
        panic!(rt; "no memory");
    };
    let one = all_answers(rt, alloc, &text, 1);
    let sixteen = all_answers(rt, alloc, &text, 16);
    are_alike(rt, &one, &sixteen);
    let due = Some((9_082, 18));
    same(
        rt,
        one.get(9_081).map(|done| (done.number, done.value)),
        due,
    );
}

/// A queue has as many places as its arena has jobs: 1,024 at the most arenas, and all at one.
#[test]
fn sixteen_workers_answer_65_536_jobs_as_one_does(rt: HostRuntime) {
    is_answered_alike(&rt, rt.alloc(), 64);
    is_answered_alike(&rt, rt.alloc(), 1);
}

/// When all workers have gone, nobody is placed at either arena, nor in need of a worker.
#[test]
fn sixteen_workers_leave_both_arenas(rt: HostRuntime) {
    let Ok(driven) = drive_to_close(&rt, rt.alloc(), PLAN, 16, &OpenGate) else {
        panic!(&rt; "no answers");
    };
    same(&rt, (driven.done.len(), driven.closed.workers), (3, 0));
    for arena in [ArenaId::new(1), ArenaId::new(2)] {
        let view = driven.closed.chronicle.market().view(arena);
        let empty = matches!(view, Some(shown) if shown.active == 0 && shown.request == 0);
        holds(&rt, empty);
    }
    drop(driven);
}

/// The plan of the text.
fn plan_of<R: Abort>(rt: &R, alloc: Global) -> Plan {
    let Ok(plan) = read_plan(alloc, PLAN) else {
        panic!(rt; "no plan");
    };
    plan
}

/// The answers to these jobs of the plan, by their numbers.
fn answers<R: Abort>(rt: &R, alloc: Global, numbers: &[u32]) -> Vec<Done> {
    let mut done = Vec::new(alloc);
    for number in numbers {
        let task = match *number {
            1 => Task::Sum(10),
            2 => Task::Digits(9_081),
            _ => Task::Sum(100),
        };
        let job = Job {
            number: *number,
            task,
        };
        let pushed = done.push(job.run());
        holds(rt, pushed.is_ok());
    }
    done
}

/// Answers to these jobs, by workers that ended so, come to this fault.
fn comes_to<R: Abort>(rt: &R, alloc: Global, numbers: &[u32], ended: &[Ended], due: DriveFault) {
    let plan = plan_of(rt, alloc);
    let Err(fault) = gather_done(&plan, answers(rt, alloc, numbers), ended) else {
        panic!(rt; "an outcome");
    };
    same(rt, fault, due);
    drop(plan);
}

/// The worker took job 2, and the gate stayed shut.
fn shut() -> Ended {
    Ended::GateShut(Job {
        number: 2,
        task: Task::Digits(9_081),
    })
}

#[test]
fn answers_of_idle_workers_are_put_in_order(rt: HostRuntime) {
    let plan = plan_of(&rt, rt.alloc());
    let done = answers(&rt, rt.alloc(), &[3, 1, 2]);
    let Ok(gathered) = gather_done(&plan, done, &[Ended::Idle, Ended::Idle]) else {
        panic!(&rt; "no outcome");
    };
    for (done, due) in gathered.iter().zip([(1, 55), (2, 18), (3, 5050)]) {
        same(&rt, done.number, due.0);
        same(&rt, done.value, due.1);
    }
    same(&rt, gathered.len(), 3);
    drop(plan);
}

#[test]
fn want_of_memory_is_told_first(rt: HostRuntime) {
    let alloc = rt.alloc();
    let own = [shut(), Ended::Memory];
    comes_to(&rt, alloc, &[1, 2, 3], &own, DriveFault::Memory);
    let of_a_call = [
        Ended::Call(CallFault::HistoryFull),
        Ended::Call(CallFault::Memory),
    ];
    comes_to(&rt, alloc, &[1, 2], &of_a_call, DriveFault::Memory);
}

#[test]
fn workers_that_broke_off_are_told_before_answers(rt: HostRuntime) {
    let alloc = rt.alloc();
    let at_a_gate = [Ended::Idle, shut()];
    comes_to(&rt, alloc, &[1, 2, 3], &at_a_gate, DriveFault::Unfinished);
    let at_no_station = [Ended::NoStation(ArenaId::new(3))];
    comes_to(
        &rt,
        alloc,
        &[1, 2, 2],
        &at_no_station,
        DriveFault::Unfinished,
    );
    let at_the_end = [Ended::Call(CallFault::HistoryFull), Ended::Idle];
    comes_to(&rt, alloc, &[1], &at_the_end, DriveFault::Unfinished);
}

#[test]
fn doubled_answers_are_told_before_missing_ones(rt: HostRuntime) {
    let alloc = rt.alloc();
    let idle = [Ended::Idle];
    comes_to(&rt, alloc, &[1, 2, 2, 3], &idle, DriveFault::Doubled(2));
    comes_to(&rt, alloc, &[2, 2], &idle, DriveFault::Doubled(2));
    comes_to(&rt, alloc, &[1, 2], &idle, DriveFault::Missing(3));
}
