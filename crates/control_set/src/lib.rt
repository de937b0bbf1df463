//! The living limits on parallelism (oneTBB's `global_control` of `max_allowed_parallelism`): they are numbered as they
//! are made, and while several live the least value counts. The least is kept, so that asking for it walks over nothing.
#![tactic(auto)]

mod control;
mod control_set;

pub use control_set::ControlSet;
