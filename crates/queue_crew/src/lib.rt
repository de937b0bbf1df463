//! Producers and consumers at one queue, each in a thread of its own, and met again.
//!
//! [`exchange`] opens a `job_queue` with as many takers as feeders, lets each feeder store its jobs and each taker take as many,
//! waits for all, and settles the queue: what each taker took is left, and what nobody did.
#![tactic(auto)]

mod ends;
mod exchanging;

pub use exchanging::{Exchanged, exchange};
