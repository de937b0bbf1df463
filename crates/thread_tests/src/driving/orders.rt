//! The order in which the jobs of each arena are done: that of one pass over the plan for each arena, which is how queues were filled
//! before one pass filled them all.
ghost use Rattle.std.specs.Prelude.{◌<◌, ◌≤◌, length};

use crate::asserts::same;
use drive_plan::read_plan;
use market_drive::drive;
use plan_jobs::PlannedJob;
use rand::{RngExt, SeedableRng};
use rand_xoshiro::SplitMix64;
use std::alloc::{AllocError, Global};
use std::process::Abort;
use std::rt::HostRuntime;
use std::sync::Wait;
use std::sync::atomic::{AtomicU64, Ordering};
use std::thread::Threads;
use worker_main::Gate;

/// Digests the numbers of jobs in the order in which they are done.
#[derive(Drop)]
struct Order {
    done: AtomicU64,
}

impl Gate for Order {
    fn before(&self, number: u32, earlier: u64) -> bool {
        let _ = earlier;
        let _ = number;
        true
    }

    fn after(&self, number: u32) {
        let order = self.done.load(Ordering::SeqCst);
        self.done.store(order_with(order, number), Ordering::SeqCst);
    }
}

/// The digest with one more number.
fn order_with(order: u64, number: u32) -> u64 {
    order.wrapping_mul(65_599).wrapping_add(u64::from(number))
}

/// The digest of a pass over all jobs for each arena, from the last, where a worker alone begins, to the first.
fn order_of_passes(jobs: &[PlannedJob], arenas: u32) -> u64
    requires few { length jobs.now ≤ 65536 }
{
    let mut order = 0;
    for arena in (1..=arenas).rev() {
        for (place, planned) in jobs.iter().enumerate() {
            if planned.arena.get() == arena {
                order = order_with(order, place as u32 + 1);
            }
        }
    }
    order
}

/// A plan of so many arenas, all alike, and of so many jobs, each at an arena by chance.
fn plan_by_chance(alloc: Global, seed: u64, arenas: u32, jobs: u32) -> Result<Vec<u8>, AllocError>
    requires some { 0 < arenas }
{
    let mut text = Vec::new(alloc);
    text.extend_from_slice(b"market 65 64\n")?;
    for _ in 0..arenas {
        text.extend_from_slice(b"arena 8 1 normal 4 0\n")?;
    }
    let mut random = SplitMix64::seed_from_u64(seed);
    for _ in 0..jobs {
        let arena = random.random_range(0..arenas).wrapping_add(1);
        let line = format!(in alloc; "job {arena} sum 1\n")?;
        text.extend_from_slice(line.as_bytes())?;
    }
    Ok(text)
}

/// One worker does all jobs of such a plan, in the order of the passes.
fn is_in_order<R: Threads + Wait + Sync + Abort>(
    rt: &R,
    alloc: Global,
    seed: u64,
    arenas: u32,
    jobs: u32,
)
    requires some { 0 < arenas }
{
    let Ok(text) = plan_by_chance(alloc, seed, arenas, jobs) else {
        panic!(rt; "no memory");
    };
    let Ok(plan) = read_plan(alloc, &text) else {
        panic!(rt; "no plan");
    };
    let gate = Order {
        done: AtomicU64::new(0),
    };
    let Ok(done) = drive(rt, alloc, &text, 1, &gate) else {
        panic!(rt; "no answers");
    };
    same(rt, done.len(), plan.jobs().len());
    let order = gate.done.load(Ordering::SeqCst);
    same(rt, order, order_of_passes(plan.jobs(), arenas));
    drop(done);
    drop(plan);
}

#[test]
fn one_worker_does_the_jobs_of_each_arena_in_order(rt: HostRuntime) {
    for seed in 0..40 {
        is_in_order(&rt, rt.alloc(), seed, 1, 9);
        is_in_order(&rt, rt.alloc(), seed, 3, 50);
        is_in_order(&rt, rt.alloc(), seed, 63, 40);
        is_in_order(&rt, rt.alloc(), seed, 64, 200);
    }
}
