//! A bounded queue of jobs that threads share, whose passes know what they stored and what they took.
//!
//! [`JobQueue::new`] gives a queue, its [`Feeder`]s and its [`Taker`]s, which may go to threads of their own. A feeder is the right
//! to push, a taker the right to pop. What is known of a feeder is the list of the jobs that it stored; of a taker, the list of
//! those that it took, each with the feeder that stored it and its place among that feeder's jobs. Neither can be dropped:
//! [`JobQueue::settle`] takes all of them back, and tells that each job that was stored was taken by exactly one pop, or gives a
//! job that none took.
//!
//! Behind it lies `crossbeam_queue`'s bounded queue under a rule of this crate. `rule` says what holds between any two steps,
//! `dealing` and `settling` are the two ends, and `law` says what follows of any order of pushes and pops.
#![tactic(auto)]

mod dealing;
mod law;
mod pass;
mod queue;
mod rule;
mod settling;
mod view;

pub use law::what_is_left_was_stored_later;
pub use pass::{Feeder, Taker};
pub use queue::JobQueue;
pub use view::Fed;
