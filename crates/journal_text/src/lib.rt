//! The text of a journal, handed out by pieces as small as its reader wants them.
//!
//! [`Unread`] takes the parts of a history as they are cut, and gives their lines. What it was given is never lost: a part for whose
//! lines there is no memory waits, and what was not handed out yet stays.
#![tactic(auto)]

mod page;
mod unread;

pub use unread::Unread;
