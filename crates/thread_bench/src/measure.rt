//! How long something takes.
use crate::calls::Scene;
use crate::fault::BenchFault;
use crate::jobs::Shift;
use crate::mutexed;
use crate::queues::Exchange;
use crate::repeater::Turn;
use std::alloc::Global;
use std::rt::Clock;
use std::sync::Wait;
use std::thread::Threads;
use std::time::Instant;

/// How many rounds are timed.
pub const ROUNDS: usize = 7;

/// What is measured.
#[derive(Clone, Copy)]
pub enum Subject<'a> {
    /// Calls through an office.
    Calls(Scene),
    /// Requests to a market of so many arenas behind a mutex.
    Mutexed(u32),
    /// A queue of jobs.
    Queue(Exchange),
    /// The jobs of a plan.
    Plan(Shift<'a>),
}

impl Subject<'_> {
    /// One round, and how many calls or jobs it was. A round of none says that something went wrong.
    pub fn round<R: Clock + Threads + Wait + Sync>(
        self,
        rt: &R,
        alloc: Global,
    ) -> Result<u64, BenchFault> {
        match self {
            Subject::Calls(scene) => scene.round(rt, alloc),
            Subject::Mutexed(arenas) => mutexed::round(rt, alloc, arenas),
            Subject::Queue(exchange) => exchange.round(rt, alloc),
            Subject::Plan(shift) => shift.round(rt, alloc),
        }
    }

    /// How many turns a round has.
    fn turns(self) -> u64 {
        match self {
            Subject::Calls(scene) => scene.turns(),
            Subject::Mutexed(_) => u64::from(Turn::Request.times()),
            Subject::Queue(exchange) => exchange.turns(),
            Subject::Plan(shift) => shift.turns(),
        }
    }
}

/// The nanoseconds of a round.
fn time_round<R: Clock + Threads + Wait + Sync>(
    rt: &R,
    alloc: Global,
    subject: Subject<'_>,
) -> Result<u64, BenchFault> {
    let start = Instant::now(rt)?;
    let count = subject.round(rt, alloc)?;
    let nanos = start.elapsed(rt)?.as_nanos();
    if count == 0 {
        return Err(BenchFault::Undone);
    }
    Ok(u64::try_from(nanos).unwrap_or(u64::MAX))
}

/// The nanoseconds of one turn, in the fastest of the rounds.
pub fn time_turn<R: Clock + Threads + Wait + Sync>(
    rt: &R,
    alloc: Global,
    subject: Subject<'_>,
) -> Result<u64, BenchFault> {
    let mut least = u64::MAX;
    for _ in 0..ROUNDS {
        least = least.min(time_round(rt, alloc, subject)?);
    }
    Ok(least.checked_div(subject.turns()).unwrap_or(0))
}
