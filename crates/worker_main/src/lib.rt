//! A worker's loop: it goes where the market places it, and works through the jobs of that arena.
//!
//! [`work`] takes a worker's pass, the [`Station`]s of the arenas and a taker of each station's queue. The worker joins; where it
//! is placed it takes the arena's jobs one by one, asks a [`Gate`] before each and tells it after, and asks the office after each
//! job whether to stay. Where it is recalled it joins again. Where the queue is empty it gives the arena's request back, leaves
//! and joins again, until no arena is in need of a worker. Pass and takers come back in every case, with what was done and why
//! it ended.
//!
//! `turn` is one stay at an arena, `working` what goes on between them.
#![tactic(auto)]

mod gate;
mod report;
mod station;
mod turn;
mod working;

pub use gate::{Gate, OpenGate};
pub use report::{Ended, Report};
pub use station::Station;
pub use working::work;
