//! A part of a history whose lines are not written yet.
ghost use Rattle.std.specs.Prelude.{◌≡◌, ◌++◌, [], codes, Some, false, IfOk};
ghost use Rattle.journal_replay.specs.Journal.{header_line, entry_lines};
ghost use Rattle.journal_text.specs.Texts.{page_lines};

use byte_devices::{DeviceFault, Sink};
use edit_history::Part;
use journal_replay::{Header, write_header, write_part};
use std::alloc::{AllocError, Global};

/// A part of a history, and how many levels its market has.
#[derive(Drop)]
pub struct Page {
    pub levels: u32,
    pub part: Part,
}

/// A text in memory that grows at its end.
#[derive(Drop)]
struct Text {
    bytes: Vec<u8>,
    failed: bool,
}

impl Text {
    /// A text with nothing in it.
    fn empty(alloc: Global) -> Text
        ensures empty { ⟦<Text as Sink>⟧.taken result ≡ Some [] }
        ensures working { ⟦<Text as Sink>⟧.failed result ≡ false }
    {
        Text {
            bytes: Vec::new(alloc),
            failed: false,
        }
    }
}

impl Sink for Text {
    ghost use Rattle.std.specs.Prelude.{Some};

    ghost taken = { λ s. Some s.bytes.items };

    ghost failed = { λ s. s.failed };

    fn write(&mut self, bytes: &[u8]) -> Result<usize, DeviceFault> {
        if self.bytes.extend_from_slice(bytes).is_err() {
            self.failed = true;
            return Err(DeviceFault);
        }
        Ok(bytes.len())
    }

    fn failed(&self) -> bool {
        self.failed
    }
}

/// The line of a header, with its LF. Out of memory is the `Err`.
pub fn header_text(alloc: Global, header: Header) -> Result<Vec<u8>, AllocError>
    ensures exact { IfOk result (λ text. text.items ≡ header_line header ++ codes "\n") }
{
    let mut text = Text::empty(alloc);
    if write_header(alloc, header, &mut text).is_err() {
        return Err(AllocError);
    }
    Ok(text.bytes)
}

/// The lines of a part. Out of memory is the `Err`.
pub fn page_text(alloc: Global, page: &Page) -> Result<Vec<u8>, AllocError>
    ensures exact { IfOk result (λ text. text.items ≡ page_lines page.now) }
{
    let mut text = Text::empty(alloc);
    if write_part(alloc, page.levels, &page.part, &mut text).is_err() {
        return Err(AllocError);
    }
    Ok(text.bytes)
}
