//! The journal of a chronicle: its text, one JSON line for the opening and one for each call with its reply.
//!
//! [`write_journal`] writes it. Where the history is taken out in parts, [`write_header`] and then [`write_part`] for each of them write
//! the same ([`header_and_parts_are_the_journal`]). What is written is `specs/Journal`, said over the history's plain list. [`check`] reads
//! one and replays it, and so does [`check_source`] with what a source has left; [`watch_source`] also shows each entry to a [`Watcher`].
//! How a line reads is `specs/Reading`, what is found of a text `specs/Verdicts`, what that is in terms of histories `specs/Legality`, and
//! what a watcher makes of them `specs/Watched`.
#![tactic(auto)]

mod checker;
mod cutter;
mod entry;
mod fields;
mod header;
mod journal;
mod law;
mod line;
mod reading;
mod texts;
mod verdict;
mod watcher;

pub use byte_devices::OutFault;
pub use checker::{check, check_source, watch_source};
pub use header::{Extent, Header};
pub use journal::{write_header, write_journal, write_part};
pub use law::{
    header_and_parts_are_the_journal, journals_of_legal_histories_are_legal,
    legal_journals_tell_legal_histories, written_lines_are_short,
};
pub use verdict::{DueReply, Verdict};
pub use watcher::{Unwatched, Watcher};
