//! What the program `market` does once its words are read (`market_words`): it runs scripts, writes their journals, explains the markets that
//! they lead to, replays or draws journals, or has plans driven, from a source to a sink.
#![tactic(auto)]

mod chart;
mod drive;
mod drive_text;
mod engine;
mod explain;
mod fault;
mod journal;
mod progress;
mod recording;
mod replay;
mod session;

pub use chart::run_chart;
pub use drive::{DriveEnd, run_drive, run_drive_through, status_of_drive};
pub use engine::run_script;
pub use explain::explain_script;
pub use fault::{RunFault, status_of_run};
pub use journal::run_journal;
pub use progress::{Meter, MeteredSource, ProgressGate};
pub use replay::{run_replay, status_of_replay};
