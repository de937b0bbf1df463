//! Jobs run by workers that a market moves between arenas: [`drive`] reads a plan, and gives the answers to its jobs. All drives of
//! a plan that are finished give the same, by any number of workers. [`drive_to_close`] gives the office's history beside them.
//!
//! It opens an office for the plan's market, feeds a queue for each arena, lets each worker work in a thread of its own
//! (`worker_main`), and puts their answers in order. `lines` are the queues, `racks` the right to pop of each worker, `opener` and
//! `worker` who calls at the office, `gathering` what their ends and answers come to.
//!
//! [`plan_commands`] makes the plan's market, and [`unservable`] finds the first arena whose jobs no worker would ever come to. Which
//! commands they are is `specs/Making`, and which arenas no worker comes to `specs/Servable`.
#![tactic(auto)]

mod commands;
mod counting;
mod driven;
mod driving;
mod ends;
mod fault;
mod gathering;
mod lines;
mod opener;
mod racks;
mod reports;
mod servable;
mod shifts;
mod worker;

pub use commands::plan_commands;
pub use driven::Driven;
pub use driving::{drive, drive_to_close};
pub use fault::DriveFault;
pub use gathering::gather_done;
pub use servable::unservable;
