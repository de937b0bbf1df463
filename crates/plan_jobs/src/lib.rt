//! The jobs of a plan: a [`Job`] that is run gives a [`Done`], whose type keeps that its value is its task's, and [`outcome_of`] puts the
//! answers to all jobs in order and tells where one is too many or none.
//!
//! What a task is worth is `specs/Values`, and what answers come to `specs/Outcome`. How a plan is read is `drive_plan`'s.
#![tactic(auto)]

mod gather;
mod task;

pub use gather::{GatherFault, outcome_of};
pub use task::{Done, Job, PlannedJob, Task};
