//! The words that every crate of the market speaks: the numbers of arenas, controls and seats, levels, commands and
//! replies. Their texts are in `market_texts`.
//!
//! `specs/` says what the market is: its state (`State`), one arena (`Claims`), who is allotted how many workers
//! (`Allotment`), what each command does (`Step`), and lists of commands (`History`). `proofs/Examples` holds worked examples of it.
#![tactic(auto)]

mod command;
mod level;
mod lists;
mod number;
mod opening;
mod reply;
mod row;

pub use command::{Call, Cmd};
pub use level::Level;
pub use lists::{Correction, Imbalance, Lists};
pub use number::{ArenaId, ControlId, LastNumber, SeatNo};
pub use opening::Opening;
pub use reply::{ArenaView, Entry, Fault, LimitView, OpenFault, Reply};
pub use row::Row;
