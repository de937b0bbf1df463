//! Plans of jobs: [`read_plan`] reads one.
//!
//! How a line reads is `specs/Reading`, which lines may follow one another `specs/Plans`, and which text is which plan `specs/Format`; the
//! same in the words of the format is `specs/Sections` ([`plans_are_their_sections`]). What a job is, and what its answer is worth, is
//! `plan_jobs`'.
#![tactic(auto)]

mod law;
mod line;
mod plan;
mod reader;

pub use law::plans_are_their_sections;
pub use plan::{MOST_ARENAS, Plan, PlannedArena};
pub use reader::{PlanFault, read_plan};
