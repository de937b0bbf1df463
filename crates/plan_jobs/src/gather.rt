//! Answers in order of number, each job's once.
ghost use Rattle.std.specs.Prelude.{◌≤◌, IfErr, IfNone, IfOk, IfSome, length};
ghost use Rattle.std.specs.List.Sorted.{IsPermutation};
ghost use Rattle.plan_jobs.specs.Outcome.{IsDoubled, IsMissing, IsOutcome};
ghost use Rattle.plan_jobs.specs.Gathering.{IsGatherFault, IsInOrder, Rises};

use crate::task::{Done, PlannedJob};

/// Why answers are not the outcome of a plan. Where both faults are due it is `Doubled`.
#[derive(Clone, Copy, Debug, PartialEq, Eq)]
pub enum GatherFault {
    /// The least number that more than one answer has, or one that is not that of a job of the plan.
    Doubled(u32),
    /// The least number of a job that no answer has.
    Missing(u32),
}

/// The first number that more than one answer has, or one that is not that of a job of the plan.
fn first_doubled(sorted: &[Done], jobs: &[PlannedJob]) -> Option<u32>
    requires few { length jobs.now ≤ 65536 }
    requires in_order { IsInOrder sorted.now }
    ensures doubled { IfSome result (IsDoubled jobs.now sorted.now) }
    ensures rises { IfNone result (Rises jobs.now sorted.now) }
{
    let mut last = 0;
    for done in sorted {
        if done.number <= last || done.number as usize > jobs.len() {
            return Some(done.number);
        }
        if done.task != jobs[done.number as usize - 1].task {
            return Some(done.number);
        }
        last = done.number;
    }
    None
}

/// The first number of a job that no answer has.
fn first_missing(sorted: &[Done], jobs: &[PlannedJob]) -> Option<u32>
    requires few { length jobs.now ≤ 65536 }
    requires rises { Rises jobs.now sorted.now }
    ensures missing { IfSome result (IsMissing jobs.now sorted.now) }
    ensures none { IfNone result (IsOutcome jobs.now sorted.now) }
{
    for place in 0..jobs.len() {
        if place >= sorted.len() || sorted[place].number as usize != place + 1 {
            return Some(place as u32 + 1);
        }
    }
    None
}

/// The answers to a plan's jobs, in order of number: for each job one, which has its value. It takes no memory, and the
/// time of sorting them.
///
/// `Doubled` comes first, where a number has more than one answer, or one that is not that of a job of the plan; then
/// `Missing`, where a job has none. Both name the least such number. The answers are let go then.
pub fn outcome_of(jobs: &[PlannedJob], done: Vec<Done>) -> Result<Vec<Done>, GatherFault>
    requires few { length jobs.now ≤ 65536 }
    ensures outcome { IfOk result (λ gathered. IsOutcome jobs.now gathered.items) }
    ensures same { IfOk result (λ gathered. IsPermutation done.items gathered.items) }
    ensures fault { IfErr result (IsGatherFault jobs.now done.items) }
{
    let mut done = done;
    done.sort_unstable_by_key(|d| d.number);
    if let Some(number) = first_doubled(done.as_slice(), jobs) {
        return Err(GatherFault::Doubled(number));
    }
    if let Some(number) = first_missing(done.as_slice(), jobs) {
        return Err(GatherFault::Missing(number));
    }
    Ok(done)
}
