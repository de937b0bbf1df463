//! The explanation of a market: a table that shows how the workers of each level are divided among its arenas, with every
//! carry.
//!
//! [`explain`] writes it. What is written is `specs/Explanation`, said over the market's state alone.
#![tactic(auto)]

mod column;
mod explanation;
mod line;

pub use explanation::explain;
