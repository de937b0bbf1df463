//! A line of a journal, read as an entry. Nearly every line is cut at the places of its members (`cutter`), and every other is read as
//! a tree of values, by `serde_json`: what is not cut is no entry as a rule, so that it ends the journal.
ghost use Rattle.std.specs.Prelude.{◌≡◌, Some, IfOk, option_map};
ghost use Rattle.serde_json.specs.Data.{object};
ghost use Rattle.journal_replay.specs.EntryLines.{IsSeated, Tells, reading_of};
ghost use Rattle.journal_replay.specs.Members.{members_of};
ghost use Rattle.journal_replay.specs.Reading.{entry_in, json_of};

use crate::cutter::cut_line;
use crate::fields::Fields;
use crate::reading::{Recorded, fields_in, read_json};
use crate::texts::Texts;
use serde_json::Value;
use std::alloc::{AllocError, Global};

/// What a line is in a market of so many seats and levels.
#[derive(Clone, Copy)]
pub(crate) enum Reading<'a> {
    /// An entry.
    Entry(Recorded<'a>),
    /// JSON, and no entry.
    NotEntry,
    /// No JSON.
    NotJson,
}

impl<'a> Reading<'a> {
    /// What an object is that has these fields, in a market of so many seats and levels.
    #[inline(always)]
    fn of(fields: Fields<'a>, seats: u8, levels: u32) -> Self
        ensures exact { reading_of result ≡ Some (entry_in seats levels (object (members_of fields.entry))) }
        ensures seat { IsSeated seats result }
    {
        match fields.entry(seats, levels) {
            Some(entry) => Reading::Entry(entry),
            None => Reading::NotEntry,
        }
    }
}

/// Memory that is used again for each line.
#[derive(Drop)]
pub(crate) struct Room {
    /// For the texts of a line that is cut, once their escapes are undone.
    texts: Texts,
    /// The tree of values that a line was read as, from which its texts are lent.
    tree: Option<Value>,
}

impl Room {
    /// Before the first line.
    pub(crate) fn new(alloc: Global) -> Self {
        Room {
            texts: Texts::new(alloc),
            tree: None,
        }
    }

    /// Lets go what only one line was read as.
    #[inline(always)]
    pub(crate) fn let_go(&mut self) {
        if self.tree.is_some() {
            self.tree = None;
        }
    }
}

/// Takes the fields of a line that was not cut by the tree of its values: whether it is JSON.
// Apart, since each line would else make room for all that is needed here.
#[inline(never)]
fn read_tree<'a>(
    alloc: Global,
    line: &[u8],
    tree: &'a mut Option<Value>,
    fields: &mut Fields<'a>,
) -> Result<bool, AllocError>
    ensures { IfOk result (λ json. Tells json (members_of fields.new) (json_of line.now)) }
{
    *tree = read_json(alloc, line)?;
    let Some(value) = tree else {
        return Ok(false);
    };
    *fields = fields_in(value);
    Ok(true)
}

/// What a line is as JSON, and which entry that is in a market of so many seats and levels.
#[inline(always)]
pub(crate) fn read<'a>(
    alloc: Global,
    line: &'a [u8],
    room: &'a mut Room,
    seats: u8,
    levels: u32,
) -> Result<Reading<'a>, AllocError>
    ensures exact { IfOk result (λ reading. reading_of reading ≡ option_map (entry_in seats levels) (json_of line.entry.now)) }
    ensures seat { IfOk result (λ reading. IsSeated seats reading) }
{
    let Room { texts, tree } = room;
    let mut fields = Fields::none();
    let json = match cut_line(line, texts, &mut fields) {
        Some(()) => true,
        None => read_tree(alloc, line, tree, &mut fields)?,
    };
    if json {
        Ok(Reading::of(fields, seats, levels))
    } else {
        Ok(Reading::NotJson)
    }
}
