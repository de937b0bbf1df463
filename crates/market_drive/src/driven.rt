//! What a plan leaves that was driven.

use market_lock::Closed;
use plan_jobs::Done;

/// What driving a plan leaves.
#[derive(Drop)]
pub struct Driven {
    /// The answers to its jobs, in order of number.
    pub done: Vec<Done>,
    /// The office in which its workers were: the market with its history, call by call, from the opener's commands to the last
    /// Leave.
    pub closed: Closed,
}
