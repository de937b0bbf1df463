//! A plan is driven.
ghost use Rattle.std.specs.Prelude.{◌≡◌, ◌<◌, ◌≤◌, Ok, All, IfOk, IfErr};
ghost use Rattle.drive_plan.specs.Format.{plan_of};
ghost use Rattle.plan_jobs.specs.Outcome.{IsOutcome};
ghost use Rattle.market_drive.specs.Causes.{IsOpenedBy, WasLetThrough};
ghost use Rattle.market_drive.specs.Making.{commands_of};
ghost use Rattle.market_drive.specs.Driving.{HasCause, HasCauseIn, IsDriven, IsDue, IsEnding, IsLate, IsOfText, IsOfficeOf, IsOfficeOfText};

use crate::commands::plan_commands;
use crate::driven::Driven;
use crate::fault::DriveFault;
use crate::lines::line_up;
use crate::servable::unservable;
use crate::shifts::{Shifts, work_shifts};
use drive_plan::{Plan, PlanFault, read_plan};
use plan_jobs::Done;
use std::alloc::{AllocError, Global};
use std::marker::Brand;
use std::sync::Wait;
use std::thread::Threads;
use worker_main::Gate;

/// The plan of a text.
fn read(alloc: Global, text: &[u8]) -> Result<Plan, DriveFault>
    ensures plan { IfOk result (λ plan. plan_of text.now ≡ Ok plan) }
    ensures fault { IfErr result (IsDue text.now) }
    ensures early { IfErr result IsOfText }
{
    match read_plan(alloc, text) {
        Ok(plan) => Ok(plan),
        Err(PlanFault::BadPlan(line)) => Err(DriveFault::BadPlan(line)),
        Err(PlanFault::Memory) => Err(DriveFault::Memory),
    }
}

/// What so many workers leave of a plan.
fn drive_plan_of<G: Gate + Sync, R: Threads + Wait + Sync>(
    rt: &R,
    alloc: Global,
    plan: &Plan,
    workers: usize,
    gate: &G,
) -> Result<Driven, DriveFault>
    requires { (0 < workers) × (workers ≤ 16) }
    ensures outcome { IfOk result (λ driven. IsOutcome plan.now.jobs driven.done.items) }
    ensures office { IfOk result (λ driven. IsOfficeOf plan.now workers driven.closed) }
    ensures opened { IfOk result (λ driven. IsOpenedBy (commands_of plan.now) driven.closed.chronicle.log) }
    ensures gate { IfOk result (λ driven. All (WasLetThrough (G.passed gate.now) (G.told gate.now)) driven.done.items) }
    ensures late { IfErr result IsLate }
    ensures ending { IfErr result (IsEnding plan.now) }
    ensures cause { IfErr result (HasCause (G.refused gate.now) plan.now workers) }
{
    let Ok(cmds) = plan_commands(alloc, plan) else {
        return Err(DriveFault::Memory);
    };
    let Ok((lines, racks)) = line_up(rt, alloc, plan, workers) else {
        return Err(DriveFault::Memory);
    };
    let stations = lines.stations();
    let Shifts {
        racks,
        reports,
        closed,
    } = work_shifts::<Brand, G, R>(rt, alloc, plan, &cmds, stations, racks, gate);
    lines.settle(rt, racks);
    let Some(closed) = closed else {
        return Err(DriveFault::Memory);
    };
    match reports.gather(plan) {
        Ok(done) => Ok(Driven { done, closed }),
        Err(fault) => {
            drop(closed);
            Err(fault)
        }
    }
}

/// Reads a plan, and gives the answers to its jobs in order of number: at Ok the same by every number of workers, 1 to 16, each of
/// which works in a thread of its own, or in the calling thread where none can be made. A gate is asked before each job and told
/// after it. Beside the answers it gives the office that was closed, with the history of its calls, in which the first seat gave the
/// plan's commands, in order.
///
/// `BadPlan` comes first, where the text is no plan; then `Unservable`, where an arena with jobs would never be allotted a worker.
/// The others come only after the office was opened, with all workers back and the office closed: `Memory`, `Unfinished`,
/// `Missing`, in this order. `Memory` may come at any time, and `Doubled` never does. `Unfinished` comes where a worker ended at a
/// gate that refused its job 1,000,000 times, at an arena without a station, or where the history was full, as it may be for who
/// opens the market, too; `Missing` only where all workers ended because no work was left.
pub fn drive_to_close<G: Gate + Sync, R: Threads + Wait + Sync>(
    rt: &R,
    alloc: Global,
    text: &[u8],
    workers: usize,
    gate: &G,
) -> Result<Driven, DriveFault>
    requires workers { (0 < workers) × (workers ≤ 16) }
    ensures outcome { IfOk result (λ driven. IsDriven text.now driven.done.items) }
    ensures office { IfOk result (λ driven. IsOfficeOfText text.now workers driven.closed) }
    ensures gate { IfOk result (λ driven. All (WasLetThrough (G.passed gate.now) (G.told gate.now)) driven.done.items) }
    ensures fault { IfErr result (IsDue text.now) }
    ensures cause { IfErr result (HasCauseIn (G.refused gate.now) text.now workers) }
{
    let plan = match read(alloc, text) {
        Ok(plan) => plan,
        Err(fault) => return Err(fault),
    };
    match unservable(alloc, &plan) {
        Ok(None) => drive_plan_of(rt, alloc, &plan, workers, gate),
        Ok(Some(arena)) => Err(DriveFault::Unservable(arena)),
        Err(AllocError) => Err(DriveFault::Memory),
    }
}

/// The same, of which only the answers are wanted.
pub fn drive<G: Gate + Sync, R: Threads + Wait + Sync>(
    rt: &R,
    alloc: Global,
    text: &[u8],
    workers: usize,
    gate: &G,
) -> Result<Vec<Done>, DriveFault>
    requires workers { (0 < workers) × (workers ≤ 16) }
    ensures outcome { IfOk result (λ done. IsDriven text.now done.items) }
    ensures gate { IfOk result (λ done. All (WasLetThrough (G.passed gate.now) (G.told gate.now)) done.items) }
    ensures fault { IfErr result (IsDue text.now) }
    ensures cause { IfErr result (HasCauseIn (G.refused gate.now) text.now workers) }
{
    match drive_to_close(rt, alloc, text, workers, gate) {
        Ok(driven) => {
            let Driven { done, closed } = driven;
            drop(closed);
            Ok(done)
        }
        Err(fault) => Err(fault),
    }
}
