//! What of a journal is not handed out yet.
ghost use Rattle.std.specs.Prelude.{◌≡◌, ◌≤◌, ◌<◌, ◌++◌, [], codes, length, take, drop, true, None, is_some, IfOk, OnOk, OnErr};
ghost use Rattle.journal_replay.specs.Journal.{header_line, entry_lines};
ghost use Rattle.journal_text.specs.Texts.{text_of};

use crate::page::{Page, header_text, page_text};
use edit_history::Part;
use journal_replay::Header;
use std::alloc::{AllocError, Global};
use std::marker::Model;

/// What of a journal is not handed out yet. Contracts see its text, and whether the last part of it still waits to be written.
#[derive(Drop)]
pub struct Unread {
    page: Option<Page>,
    text: Vec<u8>,
    next: usize,
}

impl Model for Unread {
    ghost use Rattle.std.specs.Prelude.{◌≤◌, length, drop};
    ghost use Rattle.journal_text.specs.Texts.{OfUnread};

    ghost Value = { OfUnread };

    ghost view = { λ u. record { ready = drop u.next u.text.items; page = u.page } };

    ghost invariant = { λ u. u.next ≤ length u.text.items };
}

impl Unread {
    /// A journal of which the header is not handed out yet. Out of memory is the `Err`.
    pub fn new(alloc: Global, header: Header) -> Result<Unread, AllocError>
        ensures text { IfOk result (λ u. text_of u ≡ header_line header ++ codes "\n") }
        ensures free { IfOk result (λ u. u.page ≡ None) }
    {
        Ok(Unread {
            page: None,
            text: header_text(alloc, header)?,
            next: 0,
        })
    }

    /// Whether a part waits to be written: no other is taken till then.
    pub fn waits(&self) -> bool
        ensures exact { result ≡ is_some self.now.page }
    {
        self.page.is_some()
    }

    /// Whether all of it is handed out.
    pub fn is_empty(&self) -> bool
        ensures yes { result ≡ true → text_of self.now ≡ [] }
        ensures free { result ≡ true → self.now.page ≡ None }
    {
        self.page.is_none() && self.next == self.text.len()
    }

    /// Puts the lines of a part at the end, in a market of so many levels. It takes no memory.
    pub fn put(&mut self, levels: u32, part: Part)
        requires free { self.old.page ≡ None }
        ensures text { text_of self.new ≡ text_of self.old ++ entry_lines levels part.entries.items }
    {
        self.page = Some(Page { levels, part });
    }

    /// Writes the part that waits, where all before it is handed out. Out of memory is the `Err`, and it then waits still.
    fn turn(&mut self, alloc: Global) -> Result<(), AllocError>
        ensures ok { OnOk result (text_of self.new ≡ text_of self.old) }
        ensures ready { OnOk result (self.new.ready ≡ [] → self.new.page ≡ None) }
        ensures err { OnErr result (self.new ≡ self.old) }
    {
        if !self.text[self.next..].is_empty() {
            return Ok(());
        }
        let Some(page) = &self.page else {
            return Ok(());
        };
        let text = page_text(alloc, page)?;
        self.text = text;
        self.next = 0;
        self.page = None;
        Ok(())
    }

    /// Copies the first bytes that are not handed out yet into the buffer, and says how many: 0 where all are handed out, or where
    /// the buffer has no room. Out of memory is the `Err`: nothing is then handed out, and nothing is lost.
    pub fn read(&mut self, alloc: Global, buffer: &mut [u8]) -> Result<usize, AllocError>
        ensures within { IfOk result (λ n. n ≤ length buffer.old) }
        ensures given { IfOk result (λ n. take n buffer.new ≡ take n (text_of self.old)) }
        ensures rest { IfOk result (λ n. drop n buffer.new ≡ drop n buffer.old) }
        ensures left { IfOk result (λ n. text_of self.new ≡ drop n (text_of self.old)) }
        ensures all { IfOk result (λ n. n ≡ 0 → 0 < length buffer.old → text_of self.old ≡ []) }
        ensures err { OnErr result ((self.new ≡ self.old) × (buffer.new ≡ buffer.old)) }
    {
        self.turn(alloc)?;
        let given = &self.text[self.next..];
        let count = given.len().min(buffer.len());
        buffer[..count].copy_from_slice(&given[..count]);
        self.next += count;
        Ok(count)
    }
}
