//! Many threads at one small queue.
ghost use Rattle.std.specs.Prelude.{◌<◌, ◌≤◌};

use crate::asserts::{holds, same};
use queue_crew::{Exchanged, exchange};
use std::alloc::Global;
use std::process::Abort;
use std::rt::HostRuntime;

/// Marks each job that a taker took, and tells whether each was one of those that were stored, was not marked before, and came
/// after the earlier ones of its feeder.
fn marks_each_once(marks: &mut [bool], last: &mut [u64], got: &[u64], jobs: u64) -> bool
    requires { 0 < jobs }
{
    let mut so = true;
    for job in got {
        let feeder = (*job / jobs) as usize;
        let place = *job as usize;
        if feeder >= last.len() || place >= marks.len() {
            return false;
        }
        so = so && !marks[place] && last[feeder] <= *job;
        marks[place] = true;
        last[feeder] = *job;
    }
    so
}

/// Whether each of the jobs was taken once, and in its feeder's order by each taker.
fn each_once(rt: &impl Abort, alloc: Global, got: &[Vec<u64>], feeders: usize, jobs: u64) -> bool
    requires { (0 < jobs) × (jobs ≤ 1048576) × (feeders ≤ 16) }
{
    let Ok(mut marks) = Vec::from_elem(alloc, false, feeders * jobs as usize) else {
        panic!(rt; "no memory");
    };
    let mut so = true;
    for list in got {
        let Ok(mut last) = Vec::from_elem(alloc, 0, feeders) else {
            panic!(rt; "no memory");
        };
        if !marks_each_once(
            marks.as_mut_slice(),
            last.as_mut_slice(),
            list.as_slice(),
            jobs,
        ) {
            so = false;
        }
    }
    so && marks.iter().all(|mark| *mark)
}

#[test]
fn two_producers_and_two_consumers_meet(rt: HostRuntime) {
    let alloc = rt.alloc();
    let Ok(Exchanged { got, settled }) = exchange(&rt, alloc, 2, 2, 1000) else {
        panic!(&rt; "no memory");
    };
    same(&rt, settled, Ok(()));
    holds(&rt, each_once(&rt, alloc, &got, 2, 1000));
}

#[test]
fn sixteen_threads_lose_and_double_nothing(rt: HostRuntime) {
    let alloc = rt.alloc();
    let Ok(Exchanged { got, settled }) = exchange(&rt, alloc, 16, 8, 125_000) else {
        panic!(&rt; "no memory");
    };
    same(&rt, settled, Ok(()));
    holds(&rt, each_once(&rt, alloc, &got, 8, 125_000));
}

/// The largest queue with the most feeders and takers, each of as many jobs as a feeder may store: it takes 180 MB.
#[test]
fn sixteen_feeders_and_sixteen_takers_share_65_536_places(rt: HostRuntime) {
    let alloc = rt.alloc();
    let Ok(Exchanged { got, settled }) = exchange(&rt, alloc, 65_536, 16, 1_048_576) else {
        panic!(&rt; "no memory");
    };
    same(&rt, settled, Ok(()));
    holds(&rt, each_once(&rt, alloc, &got, 16, 1_048_576));
}
