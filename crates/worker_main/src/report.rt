//! What a worker leaves.
use edit_history::CallFault;
use job_queue::Taker;
use market_types::ArenaId;
use plan_jobs::{Done, Job};

/// Why a worker ended.
#[derive(Clone, Copy, Debug, PartialEq, Eq)]
pub enum Ended {
    /// No arena was in need of a worker.
    Idle,
    /// The gate never let this job through. The worker had taken it, and did not run it.
    GateShut(Job),
    /// It was placed at this arena, which has no station.
    NoStation(ArenaId),
    /// The office did not answer.
    Call(CallFault),
    /// There was no memory for a result.
    Memory,
}

/// What a worker leaves when it ends. `P` is its pass.
pub struct Report<P> {
    /// The pass that it was given. It is not placed.
    pub pass: P,
    /// The takers that it was given, in their order.
    pub takers: Vec<Taker<Job>>,
    /// The answers to the jobs that it ran, in the order in which it ran them.
    pub done: Vec<Done>,
    /// Why it ended.
    pub ended: Ended,
}
