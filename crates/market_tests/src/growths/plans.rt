//! Plans that are read, asked about and driven.
use super::engines::new_sink;
use crate::asserts::{holds, same};
use byte_devices::{TestSink, TestSource};
use drive_plan::{Plan, PlanFault, read_plan};
use market_drive::{DriveFault, drive, plan_commands, unservable};
use market_prog::{DriveEnd, RunFault, run_drive};
use market_types::ArenaId;
use std::alloc::Global;
use std::process::Abort;
use std::rt::HostRuntime;
use std::sync::Wait;
use std::sync::atomic::{AtomicU64, Ordering};
use std::thread::Threads;
use worker_main::{Gate, OpenGate};

const PLAN: &[u8] = b"\
market 8 64
arena 8 1 normal 2 0
arena 8 1 low 1 0
control 6
job 1 sum 10
job 1 digits 9081
job 2 sum 100
";

const ANSWERS: &[u8] = b"job 1 55\njob 2 18\njob 3 5050\n";

/// Its arena is never allotted a worker.
const UNSERVABLE: &[u8] = b"market 8 64\narena 2 2 normal 5 0\njob 1 sum 10\n";

/// The plan that a text is, read again where a growth was refused.
fn plan_of(rt: &impl Abort, alloc: Global, text: &[u8]) -> Plan {
    match read_plan(alloc, text) {
        Ok(plan) => return plan,
        Err(fault) => same(rt, fault, PlanFault::Memory),
    }
    let Ok(plan) = read_plan(alloc, text) else {
        panic!(rt; "no plan");
    };
    plan
}

#[test]
fn a_refused_growth_leaves_a_plan_to_be_read(rt: HostRuntime) {
    let plan = plan_of(&rt, rt.alloc(), PLAN);
    let found = (plan.base(), plan.hard(), plan.levels());
    same(&rt, found, (8, 64, 3));
    let found = (plan.arenas().len(), plan.controls(), plan.jobs().len());
    same(&rt, found, (2, [6].as_slice(), 3));
    drop(plan);
}

/// How many commands make the plan's market, asked again where a growth was refused.
fn count_commands(rt: &impl Abort, alloc: Global, plan: &Plan) -> usize {
    if let Ok(commands) = plan_commands(alloc, plan) {
        return commands.len();
    }
    let Ok(commands) = plan_commands(alloc, plan) else {
        panic!(rt; "no memory");
    };
    commands.len()
}

#[test]
fn a_refused_growth_leaves_a_plan_s_market_to_be_made(rt: HostRuntime) {
    let plan = plan_of(&rt, rt.alloc(), PLAN);
    same(&rt, count_commands(&rt, rt.alloc(), &plan), 5);
    drop(plan);
}

/// The first arena that is never served, asked again where a growth was refused.
fn first_unservable(rt: &impl Abort, alloc: Global, text: &[u8]) -> Option<ArenaId> {
    let plan = plan_of(rt, alloc, text);
    if let Ok(found) = unservable(alloc, &plan) {
        return found;
    }
    let Ok(found) = unservable(alloc, &plan) else {
        panic!(rt; "no memory");
    };
    found
}

#[test]
fn a_refused_growth_hides_no_unservable_arena(rt: HostRuntime) {
    let found = first_unservable(&rt, rt.alloc(), UNSERVABLE);
    holds(&rt, found == Some(ArenaId::new(1)));
}

#[test]
fn a_refused_growth_invents_no_unservable_arena(rt: HostRuntime) {
    holds(&rt, first_unservable(&rt, rt.alloc(), PLAN).is_none());
}

/// Whether two workers drive the plan, which then has these answers; where it is not driven, a growth was refused.
fn is_driven<G: Gate + Sync, R: Threads + Wait + Sync + Abort>(
    rt: &R,
    alloc: Global,
    text: &[u8],
    gate: &G,
    due: &[(u32, u64)],
) -> bool {
    match drive(rt, alloc, text, 2, gate) {
        Ok(done) => {
            let found = done.iter().map(|done| (done.number, done.value));
            holds(rt, found.eq(due.iter().copied()));
            true
        }
        Err(fault) => {
            same(rt, fault, DriveFault::Memory);
            false
        }
    }
}

#[test]
fn a_refused_growth_leaves_a_plan_to_be_driven(rt: HostRuntime) {
    let due = [(1, 55), (2, 18), (3, 5050)];
    let first = is_driven(&rt, rt.alloc(), PLAN, &OpenGate, &due);
    let second = is_driven(&rt, rt.alloc(), PLAN, &OpenGate, &due);
    holds(&rt, first || second);
}

/// Nine jobs of an arena with two workers. Of nine answers no vector of a worker has room for the other's too, whichever did how many.
const NINE: &[u8] = b"\
market 8 64
arena 8 1 normal 2 0
job 1 sum 1
job 1 sum 2
job 1 sum 3
job 1 sum 4
job 1 sum 5
job 1 sum 6
job 1 sum 7
job 1 sum 8
job 1 sum 9
";

/// Holds job 1 until job 2 is done, so that each worker does a job; where none does job 2, it lets job 1 through in the end.
#[derive(Drop)]
struct SecondFirst {
    done: AtomicU64,
    asked: AtomicU64,
}

impl SecondFirst {
    fn new() -> Self {
        SecondFirst {
            done: AtomicU64::new(0),
            asked: AtomicU64::new(0),
        }
    }
}

impl Gate for SecondFirst {
    fn before(&self, number: u32, earlier: u64) -> bool {
        let _ = earlier;
        number != 1
            || self.done.load(Ordering::SeqCst) == 1
            || self.asked.fetch_add(1, Ordering::SeqCst) > 100_000
    }

    fn after(&self, number: u32) {
        if number == 2 {
            self.done.store(1, Ordering::SeqCst);
        }
    }
}

#[test]
fn a_refused_growth_leaves_the_answers_of_two_workers_to_be_joined(rt: HostRuntime) {
    let due = [
        (1, 1),
        (2, 3),
        (3, 6),
        (4, 10),
        (5, 15),
        (6, 21),
        (7, 28),
        (8, 36),
        (9, 45),
    ];
    let first = is_driven(&rt, rt.alloc(), NINE, &SecondFirst::new(), &due);
    let second = is_driven(&rt, rt.alloc(), NINE, &SecondFirst::new(), &due);
    holds(&rt, first || second);
}

/// Drives a plan that comes in pieces, and says what came of it with what was written.
fn run<R: Threads + Wait + Sync + Abort>(
    rt: &R,
    alloc: Global,
    text: &[u8],
) -> (Result<DriveEnd, RunFault>, TestSink) {
    let mut source = TestSource::new(text).in_pieces_of(20);
    let mut sink = new_sink(rt, alloc);
    let told = run_drive(rt, alloc, 2, &mut source, &mut sink);
    (told, sink)
}

/// It ended so.
fn ends(told: &Result<DriveEnd, RunFault>, end: &DriveEnd) -> bool {
    match told {
        Ok(found) => found == end,
        Err(_) => false,
    }
}

/// It ended since a growth was refused.
fn wants_memory(told: &Result<DriveEnd, RunFault>) -> bool {
    match told {
        Ok(end) => *end == DriveEnd::Refused(DriveFault::Memory),
        Err(fault) => *fault == RunFault::Memory,
    }
}

/// The plan ends so, and this is written of it. Where a growth is refused nothing is, and the next run is whole.
fn is_told<R: Threads + Wait + Sync + Abort>(
    rt: &R,
    alloc: Global,
    text: &[u8],
    end: &DriveEnd,
    due: &[u8],
) {
    let (told, sink) = run(rt, alloc, text);
    if ends(&told, end) {
        same(rt, sink.taken(), due);
        return;
    }
    holds(rt, wants_memory(&told));
    holds(rt, sink.taken().is_empty());
    let (told, sink) = run(rt, alloc, text);
    holds(rt, ends(&told, end));
    same(rt, sink.taken(), due);
}

#[test]
fn a_refused_growth_is_told_and_no_answer(rt: HostRuntime) {
    is_told(&rt, rt.alloc(), PLAN, &DriveEnd::Finished, ANSWERS);
}

#[test]
fn a_refused_growth_is_told_and_no_fault_of_the_plan(rt: HostRuntime) {
    let end = DriveEnd::Refused(DriveFault::BadPlan(2));
    let due = b"G01 bad plan line 2\n";
    is_told(
        &rt,
        rt.alloc(),
        b"market 8 64\narena 8 9 low 1 0\n",
        &end,
        due,
    );
}

/// What a driven plan asks for, once and never again.
fn is_granted<R: Threads + Wait + Sync + Abort>(rt: &R, alloc: Global) {
    let (told, sink) = run(rt, alloc, PLAN);
    holds(rt, ends(&told, &DriveEnd::Finished));
    same(rt, sink.taken(), ANSWERS);
}

#[test]
fn what_is_driven_is_granted(rt: HostRuntime) {
    is_granted(&rt, rt.alloc());
}
