//! Plans that are read. What a plan can't have is told by those of `example_scripts`.

use super::answers::planned;
use crate::asserts::{holds, same};
use drive_plan::{Plan, PlannedArena, read_plan};
use market_types::{ArenaId, Level};
use plan_jobs::{PlannedJob, Task};
use std::alloc::Global;
use std::process::Abort;
use std::rt::HostRuntime;

const PLAN: &[u8] = b"\
market 8 64
arena 8 1 normal 2 0
arena 8 1 low 1 0
job 1 sum 10
job 1 digits 9081
job 2 sum 100
";

/// Each kind of line, with the least and the greatest numbers that it may have.
const EACH_KIND: &[u8] = b"\
# a plan
market 65536 65535 8

arena 65535 65535 8 65535 65535
arena 1 0 1 0 0
control 1
#
control 65536
job 2 sum 0
job 1 sum 1000000
job 1 digits 18446744073709551615
";

/// The plan that the text is.
fn plan_of(rt: &impl Abort, alloc: Global, text: &[u8]) -> Plan {
    let Ok(plan) = read_plan(alloc, text) else {
        panic!(rt; "no plan");
    };
    plan
}

#[test]
fn a_plan_is_read(rt: HostRuntime) {
    let plan = plan_of(&rt, rt.alloc(), PLAN);
    same(&rt, plan.base(), 8);
    same(&rt, plan.hard(), 64);
    same(&rt, plan.levels(), 3);
    let first = PlannedArena {
        slots: 8,
        reserved: 1,
        level: Level::from_index(1),
        wanted: 2,
        mandatory: 0,
    };
    let second = PlannedArena {
        slots: 8,
        reserved: 1,
        level: Level::from_index(2),
        wanted: 1,
        mandatory: 0,
    };
    same(&rt, plan.arenas(), [first, second].as_slice());
    holds(&rt, plan.controls().is_empty());
    let jobs = planned();
    same(&rt, plan.jobs(), jobs.as_slice());
    drop(plan);
}

#[test]
fn each_kind_of_line_is_read(rt: HostRuntime) {
    let plan = plan_of(&rt, rt.alloc(), EACH_KIND);
    same(&rt, plan.base(), 65_536);
    same(&rt, plan.hard(), 65_535);
    same(&rt, plan.levels(), 8);
    same(&rt, plan.arenas().len(), 2);
    same(&rt, plan.arenas()[0].level.get(), 8);
    same(&rt, plan.arenas()[0].reserved, 65_535);
    same(&rt, plan.arenas()[1].reserved, 0);
    same(&rt, plan.controls(), [1, 65_536].as_slice());
    let last = PlannedJob {
        arena: ArenaId::new(1),
        task: Task::Digits(u64::MAX),
    };
    same(&rt, plan.jobs().len(), 3);
    same(&rt, plan.jobs()[2], last);
    drop(plan);
}
