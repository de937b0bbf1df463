//! How workers are divided among arenas, in the manner of oneTBB's market: levels are given workers in order, each
//! as many as it asks for; in a level each arena gets the quotient of its request times what the level was given by what
//! the level asks for, and leaves the remainder to carry to the next. No carry has to be kept for it: the carry before
//! an arena is known from what the arenas of its level before it ask for, and no level leaves any.
//!
//! Levels stand in arrays of 8, level 1 first, with 0 or `None` above the levels that a market has. No call takes
//! memory.
#![tactic(auto)]

mod carry;
mod law;
mod level;

pub use carry::{carry_share, share};
pub use law::{bound_is_given_out, no_carry_to_keep};
pub use level::{assign, mandatory_pick, top_level};
