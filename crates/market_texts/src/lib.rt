//! The texts of the market: commands and replies, read and written byte for byte.
//!
//! `specs/` says the bytes: `Reading` (how commands are spelled), `Texts` (what is written), `Script` (what a whole script prints).
//! `proofs/TextRows` holds worked examples of it.
#![tactic(auto)]

mod field;
mod reading;
mod spelling;
mod writing;

pub use field::{cut_digits, cut_field, read_level, read_number, read_number_to};
pub use reading::{read_cmd, read_line};
pub use spelling::{lines_spell_calls, texts_spell_commands};
pub use writing::{
    cmd_text, level_text, open_fault_text, push_cmd, push_number, push_reply, reply_text,
};
