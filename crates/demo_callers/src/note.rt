//! What a caller was answered, as text.
ghost use Rattle.std.specs.Prelude.{◌≡◌, ◌++◌, [], true, false, IfOk, OnOk};
ghost use Rattle.std.specs.Str.{bytes_eq};
ghost use Rattle.demo_callers.specs.Notes.{line_of, note_of, notes_of};

use edit_history::Chronicle;
use market_texts::{push_cmd, push_reply};
use market_types::{Cmd, Entry, Reply};
use std::alloc::{AllocError, Global};
use std::marker::Model;

/// The levels of the demo's market.
pub(crate) const LEVELS: u32 = 3;

/// A line for each call that was answered.
#[derive(Drop)]
pub(crate) struct Notes {
    text: Vec<u8>,
    /// There was no memory for some call's line.
    torn: bool,
}

/// Writes a call's line.
fn push_line(text: &mut Vec<u8>, cmd: &Cmd, reply: &Reply) -> Result<(), AllocError>
    ensures { OnOk result (text.new.items ≡ text.old.items ++ line_of cmd.now reply.now) }
{
    push_cmd(text, cmd, LEVELS)?;
    text.extend_from_slice(b": ")?;
    push_reply(text, reply)?;
    text.push(b'\n')?;
    Ok(())
}

/// Writes the line of an entry, if it is of this seat.
fn push_entry(text: &mut Vec<u8>, entry: &Entry, seat: u8) -> Result<(), AllocError>
    ensures { OnOk result (text.new.items ≡ text.old.items ++ note_of seat entry.now) }
{
    if entry.call.seat.get() == seat {
        push_line(text, &entry.call.cmd, &entry.reply)?;
    }
    Ok(())
}

impl Model for Notes {
    ghost use Rattle.demo_callers.specs.Notes.{Noted};

    ghost Value = { Noted };

    ghost view = { λ n. record { text = n.text.items; torn = n.torn } };
}

impl Notes {
    /// Of no call.
    pub(crate) fn new(alloc: Global) -> Self
        ensures blank { result ≡ record { text = []; torn = false } }
    {
        Notes {
            text: Vec::new(alloc),
            torn: false,
        }
    }

    /// One call more was answered.
    pub(crate) fn take(&mut self, cmd: &Cmd, reply: &Reply)
        ensures torn { self.old.torn ≡ true → self.new.torn ≡ true }
        ensures text { self.new.torn ≡ false → self.new.text ≡ self.old.text ++ line_of cmd.now reply.now }
    {
        if push_line(&mut self.text, cmd, reply).is_err() {
            self.torn = true;
        }
    }

    /// The chronicle's entries of the seat are these calls, in this order.
    pub(crate) fn agree(
        &self,
        alloc: Global,
        chronicle: &Chronicle,
        seat: u8,
    ) -> Result<bool, AllocError>
        requires whole { chronicle.now.from ≡ 0 }
        ensures torn { IfOk result (λ yes. self.now.torn ≡ true → yes ≡ false) }
        ensures same { IfOk result (λ yes. self.now.torn ≡ false → yes ≡ bytes_eq (notes_of seat chronicle.now.log) self.now.text) }
    {
        if self.torn {
            return Ok(false);
        }
        let mut text = Vec::new(alloc);
        for index in 0..chronicle.len() {
            push_entry(&mut text, chronicle.entry(index), seat)?;
        }
        Ok(text.as_slice() == self.text.as_slice())
    }
}
