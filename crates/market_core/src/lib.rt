//! The market: arenas that share workers, and what each command of a seat does to them.
//!
//! A market answers every command at once and never fails unless memory runs out; then it is as it was. What it answers
//! is what its arenas, controls and seats give as they stand, and depends on nothing that went before.
#![tactic(auto)]

mod by_level;
mod calls;
mod division;
mod law;
mod market;
mod opening;

pub use by_level::ByLevel;
pub use calls::apply_all;
pub use division::{Division, Portion};
pub use law::{a_call_moves_its_own_seat, placed_worker_is_allotted};
pub use market::Market;
