//! Cuts what a source gives into lines, hands them to a [`LineTaker`] one after the other, and hands the taker's replies
//! over to a sink as it goes: [`take_lines`]. [`take_text`] hands on the lines of a text in memory, and lets the replies go;
//! [`read_input`] reads a whole input into memory.
//! Whoever needs a whole input line by line writes a taker and no loop.
//!
//! A taker says how long a line it needs: of a longer one it gets the first bytes, told as [`LineForm::TooLong`]. It
//! says how many bytes its input may have, as a rule [`LONGEST_INPUT`], and lines can let it have more. It learns
//! whether the last line had its LF, it may stop with a fault of its own, and it may write nothing at all and keep what
//! it has made of the lines until the end: then [`silence`] says that nothing is handed over.
#![tactic(auto)]

mod engine;
mod fault;
mod form;
mod input;
mod law;
mod lines;
mod taker;
mod text;

pub use engine::take_lines;
pub use fault::InputFault;
pub use form::LineForm;
pub use input::read_input;
pub use law::silence;
pub use taker::{LONGEST_INPUT, LONGEST_LINE, LineTaker};
pub use text::{Nowhere, take_text};
