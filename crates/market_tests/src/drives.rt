//! Plans that are driven, with what is written and the exit status.
ghost use Rattle.std.specs.Prelude.{◌<◌, ◌≤◌};

use crate::asserts::{holds, same};
use crate::endless::Hashes;
use crate::work::new_sink;
use byte_devices::{Refusal, TestSource};
use market_drive::DriveFault;
use market_prog::{DriveEnd, RunFault, run_drive, run_drive_through, status_of_drive};
use market_types::ArenaId;
use std::alloc::Global;
use std::process::Abort;
use std::rt::HostRuntime;
use std::sync::Wait;
use std::thread::Threads;
use worker_main::Gate;

/// Two arenas, and three jobs for them.
pub(crate) const PLAN: &[u8] = b"\
market 8 64
arena 8 1 normal 2 0
arena 8 1 low 1 0
job 1 sum 10
job 1 digits 9081
job 2 sum 100
";

const OUTCOME: &[u8] = b"job 1 55\njob 2 18\njob 3 5050\n";

/// The same arenas without a job.
const NO_JOB: &[u8] = b"market 8 64\narena 8 1 normal 2 0\narena 8 1 low 1 0\n";

/// All slots of the arena are reserved, so no worker comes to it.
const UNSERVABLE: &[u8] = b"market 8 64\narena 2 2 normal 5 0\njob 1 sum 10\n";

/// What is written of so many workers' drive of the plan, how it ends, and with which status.
fn ends<R: Threads + Wait + Sync + Abort>(
    rt: &R,
    alloc: Global,
    plan: &[u8],
    workers: usize,
    written: &[u8],
    end: DriveEnd,
    status: u8,
)
    requires { (0 < workers) × (workers ≤ 16) }
{
    let mut source = TestSource::new(plan);
    let mut sink = new_sink(rt, alloc);
    let driven = run_drive(rt, alloc, workers, &mut source, &mut sink);
    same(rt, driven, Ok(end));
    same(rt, sink.taken(), written);
    same(rt, status_of_drive(&driven), status);
    drop(sink);
}

/// The plan is driven by four workers, and this is its outcome.
pub(crate) fn is_driven<R: Threads + Wait + Sync + Abort>(
    rt: &R,
    alloc: Global,
    plan: &[u8],
    outcome: &[u8],
) {
    ends(rt, alloc, plan, 4, outcome, DriveEnd::Finished, 0);
}

/// The plan is refused for this fault, and this is its line.
pub(crate) fn is_refused<R: Threads + Wait + Sync + Abort>(
    rt: &R,
    alloc: Global,
    plan: &[u8],
    fault: DriveFault,
    line: &[u8],
) {
    ends(rt, alloc, plan, 4, line, DriveEnd::Refused(fault), 1);
}

#[test]
fn every_number_of_workers_has_the_same_outcome(rt: HostRuntime) {
    for workers in [1, 2, 16] {
        ends(
            &rt,
            rt.alloc(),
            PLAN,
            workers,
            OUTCOME,
            DriveEnd::Finished,
            0,
        );
    }
}

#[test]
fn a_plan_without_jobs_writes_nothing(rt: HostRuntime) {
    for workers in [1, 2, 16] {
        ends(&rt, rt.alloc(), NO_JOB, workers, b"", DriveEnd::Finished, 0);
    }
}

#[test]
fn an_arena_to_which_no_worker_comes_is_told(rt: HostRuntime) {
    for workers in [1, 2, 16] {
        let end = DriveEnd::Refused(DriveFault::Unservable(ArenaId::new(1)));
        let line = b"G02 unservable arena 1\n";
        ends(&rt, rt.alloc(), UNSERVABLE, workers, line, end, 1);
    }
}

/// Lets no job through.
#[derive(Drop)]
struct Shut;

impl Gate for Shut {
    fn before(&self, number: u32, earlier: u64) -> bool {
        let _ = earlier;
        let _ = number;
        false
    }

    fn after(&self, number: u32) {
        let _ = number;
    }
}

#[test]
fn a_gate_that_stays_shut_is_told(rt: HostRuntime) {
    let mut source = TestSource::new(PLAN);
    let mut sink = new_sink(&rt, rt.alloc());
    let driven = run_drive_through(&rt, rt.alloc(), 1, &Shut, &mut source, &mut sink);
    same(&rt, driven, Ok(DriveEnd::Refused(DriveFault::Unfinished)));
    same(&rt, sink.taken(), b"G03 unfinished\n".as_slice());
    same(&rt, status_of_drive(&driven), 1);
    drop(sink);
}

#[test]
fn a_sink_is_not_asked_for_room_where_nothing_is_written(rt: HostRuntime) {
    let mut source = TestSource::new(NO_JOB);
    let mut sink = new_sink(&rt, rt.alloc()).refusing_after(0, Refusal::Fault);
    let driven = run_drive(&rt, rt.alloc(), 2, &mut source, &mut sink);
    same(&rt, driven, Ok(DriveEnd::Finished));
    drop(sink);
}

#[test]
fn a_plan_without_end_is_too_long(rt: HostRuntime) {
    let mut sink = new_sink(&rt, rt.alloc());
    let driven = run_drive(&rt, rt.alloc(), 1, &mut Hashes, &mut sink);
    holds(&rt, driven == Err(RunFault::TooLong));
    same(&rt, status_of_drive(&driven), 3);
    holds(&rt, sink.taken().is_empty());
    drop(sink);
}

#[test]
fn want_of_memory_has_a_status_of_its_own(rt: HostRuntime) {
    let refused = Ok(DriveEnd::Refused(DriveFault::Memory));
    same(&rt, status_of_drive(&refused), 3);
    same(&rt, status_of_drive(&Err(RunFault::Memory)), 3);
    for fault in [DriveFault::Doubled(2), DriveFault::Missing(3)] {
        same(&rt, status_of_drive(&Ok(DriveEnd::Refused(fault))), 1);
    }
}
