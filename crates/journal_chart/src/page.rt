//! The page that a part of a picture is written on before it goes out.
//!
//! A part has a bound, so that its page has room for it before it is begun: nothing that is written of a picture can run out of memory, and
//! all of it goes out by way of one page. What a part takes at most, each function that writes one says, beside what it writes.
ghost use Rattle.std.specs.Prelude.{◌≡◌, ◌+◌, ◌++◌, ◌∷◌, [], ◌<◌, ◌≤◌, length, IfOk};

use std::alloc::{AllocError, Global};
use std::marker::Model;

/// A text, and room for more: contracts see it as `Paged`.
#[derive(Drop)]
pub(crate) struct Page {
    bytes: Vec<u8>,
    size: usize,
}

impl Model for Page {
    ghost use Rattle.std.specs.Prelude.{◌-◌, ◌≤◌, vec_len, vec_capacity};
    ghost use Rattle.journal_chart.specs.Pages.{Paged};

    ghost Value = { Paged };

    ghost view = { λ p. record { text = p.bytes.items; room = p.size - vec_len p.bytes; size = p.size } };

    ghost invariant = { λ p. p.size ≤ vec_capacity p.bytes };
}

impl Page {
    /// An empty page of so many bytes.
    pub(crate) fn new(alloc: Global, size: usize) -> Result<Page, AllocError>
        ensures { IfOk result (λ page. page ≡ record { text = []; room = size; size = size }) }
    {
        Ok(Page {
            bytes: Vec::with_capacity(alloc, size)?,
            size,
        })
    }

    /// What is written on it.
    pub(crate) fn text(&self) -> &[u8]
        ensures { result.now ≡ self.now.text }
    {
        &self.bytes
    }

    /// Puts a text behind the others.
    // Always in its callers, so that a text of known length is put by a few moves, and not by a call.
    #[inline(always)]
    pub(crate) fn put(&mut self, text: &str)
        requires room { length text.now ≤ self.old.room }
        ensures text { self.new.text ≡ self.old.text ++ text.now }
        ensures room { self.old.room ≤ self.new.room + length text.now }
        ensures size { self.new.size ≡ self.old.size }
    {
        // It has room.
        let _ = self.bytes.extend_from_slice(text.as_bytes());
    }

    /// Puts a byte behind the others.
    #[inline(always)]
    pub(crate) fn put_byte(&mut self, byte: u8)
        requires room { 0 < self.old.room }
        ensures text { self.new.text ≡ self.old.text ++ byte ∷ [] }
        ensures room { self.old.room ≤ self.new.room + 1 }
        ensures size { self.new.size ≡ self.old.size }
    {
        self.bytes.push_reserved(byte);
    }

    /// Takes off all that is written on it.
    pub(crate) fn clear(&mut self)
        ensures { self.new ≡ record { text = []; room = self.old.size; size = self.old.size } }
    {
        self.bytes.clear();
    }
}
