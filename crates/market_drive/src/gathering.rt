//! What the ends of the workers and their answers come to.
ghost use Rattle.std.specs.Prelude.{◌≡◌, Some, None, IfOk, IfErr, IfSome, IsPermutation};
ghost use Rattle.std.specs.List.{list_any};
ghost use Rattle.plan_jobs.specs.Outcome.{IsOutcome};
ghost use Rattle.market_drive.specs.Driving.{IsLate};
ghost use Rattle.market_drive.specs.Ending.{end_fault, is_broken_off, is_for_memory, IsDueTo};

use crate::fault::DriveFault;
use drive_plan::Plan;
use edit_history::CallFault;
use plan_jobs::{Done, GatherFault};
use worker_main::Ended;

/// The worker ended because memory ran out.
fn is_for_memory(ended: &Ended) -> bool
    ensures { result ≡ is_for_memory ended.now }
{
    matches!(ended, Ended::Memory | Ended::Call(CallFault::Memory))
}

/// The worker ended for another reason than that no work was left.
fn is_broken_off(ended: &Ended) -> bool
    ensures { result ≡ is_broken_off ended.now }
{
    !matches!(ended, Ended::Idle)
}

fn has_wanted_memory(ended: &[Ended]) -> bool
    ensures { result ≡ list_any is_for_memory ended.now }
{
    ended.iter().any(is_for_memory)
}

fn has_broken_off(ended: &[Ended]) -> bool
    ensures { result ≡ list_any is_broken_off ended.now }
{
    ended.iter().any(is_broken_off)
}

/// Why workers that ended so have not done all: `Memory` where memory ran out for one, else `Unfinished` where one ended though work
/// was left.
fn end_fault(ended: &[Ended]) -> Option<DriveFault>
    ensures exact { result ≡ end_fault ended.now }
    ensures late { IfSome result IsLate }
{
    if has_wanted_memory(ended) {
        return Some(DriveFault::Memory);
    }
    if has_broken_off(ended) {
        return Some(DriveFault::Unfinished);
    }
    None
}

/// The answers to a plan's jobs, in order of number, by workers that ended so. It takes no memory, and the time of sorting them.
///
/// `Memory` comes first, where it ran out for a worker; then `Unfinished`, where one ended on a gate, a missing station or
/// a full history; then `Doubled` and `Missing`, as of `plan_jobs`.
pub fn gather_done(plan: &Plan, done: Vec<Done>, ended: &[Ended]) -> Result<Vec<Done>, DriveFault>
    ensures outcome { IfOk result (λ gathered. IsOutcome plan.now.jobs gathered.items) }
    ensures same { IfOk result (λ gathered. IsPermutation done.items gathered.items) }
    ensures ended { IfOk result (λ _. end_fault ended.now ≡ None) }
    ensures fault { IfErr result (IsDueTo plan.now.jobs done.items ended.now) }
    ensures late { IfErr result IsLate }
{
    if let Some(fault) = end_fault(ended) {
        return Err(fault);
    }
    match plan_jobs::outcome_of(plan.jobs(), done) {
        Ok(gathered) => Ok(gathered),
        Err(GatherFault::Doubled(number)) => Err(DriveFault::Doubled(number)),
        Err(GatherFault::Missing(number)) => Err(DriveFault::Missing(number)),
    }
}
