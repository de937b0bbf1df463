//! The market for C: a place that C keeps for each caller, and one function for each thing that a caller can ask.
//!
//! Each function makes one attempt and never waits, so that `market.c`, which is linked with it, waits in C. `place` is what C
//! keeps, `held` the seat behind its pointer, `code` the numbers of the answers; `office` opens, splits, merges and closes,
//! `commands` calls, `reads` asks what the market allots, `moves` joins, stays and leaves. `journal` cuts an office's history and
//! hands its text out, from a place of its own, a `journal_place` with a `held_journal`; `ending` closes a market into one.
#![tactic(auto)]

mod code;
mod commands;
mod ending;
mod held;
mod held_journal;
mod journal;
mod journal_place;
mod moves;
mod office;
mod place;
mod reads;
