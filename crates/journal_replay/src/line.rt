//! The lines of a journal: the header's without its LF, an entry's with it, written where it is to stand.
ghost use Rattle.std.specs.Prelude.{◌≡◌, ◌++◌, codes, IfOk, OnOk};
ghost use Rattle.serde_json.specs.View.{view};
ghost use Rattle.journal_replay.specs.Journal.{entry_line, header_line, second_data, second_line, third_data, third_line};

use crate::header::Header;
use market_texts::{push_cmd, push_number, push_reply};
use market_types::Entry;
use serde_json::{Value, json};
use std::alloc::{AllocError, Global};

/// The line of a header. It is of version 3 only where version 2 doesn't tell all of it.
pub(crate) fn header_line(alloc: Global, header: &Header) -> Result<Vec<u8>, AllocError>
    ensures { IfOk result (λ line. line.items ≡ header_line header.now) }
{
    if header.fits_second() {
        second_line(alloc, header)
    } else {
        third_line(alloc, header)
    }
}

/// The line of a header in version 2.
fn second_line(alloc: Global, header: &Header) -> Result<Vec<u8>, AllocError>
    ensures { IfOk result (λ line. line.items ≡ second_line header.now) }
{
    second_value(alloc, header)?.to_vec(alloc)
}

/// The line of a header in version 3.
fn third_line(alloc: Global, header: &Header) -> Result<Vec<u8>, AllocError>
    ensures { IfOk result (λ line. line.items ≡ third_line header.now) }
{
    third_value(alloc, header)?.to_vec(alloc)
}

/// What a header in version 2 is as JSON.
fn second_value(alloc: Global, header: &Header) -> Result<Value, AllocError>
    ensures { IfOk result (λ value. view value ≡ second_data header.now) }
{
    let (base, hard) = (
        u64::from(header.opening.base),
        u64::from(header.opening.hard),
    );
    let (levels, seats) = (
        u64::from(header.opening.levels),
        u64::from(header.opening.seats),
    );
    json!(in alloc; {"base": base, "hard": hard, "journal": 2u64, "levels": levels, "seats": seats})
}

/// What a header in version 3 is as JSON.
fn third_value(alloc: Global, header: &Header) -> Result<Value, AllocError>
    ensures { IfOk result (λ value. view value ≡ third_data header.now) }
{
    let (base, hard) = (
        u64::from(header.opening.base),
        u64::from(header.opening.hard),
    );
    let (levels, seats) = (
        u64::from(header.opening.levels),
        u64::from(header.opening.seats),
    );
    let last = u64::from(header.opening.last.get());
    json!(in alloc; {"base": base, "hard": hard, "journal": 3u64, "last": last, "levels": levels, "seats": seats})
}

/// Puts an entry's line and its LF at the end of what waits, in a market of so many levels. What is written of commands and
/// replies stands in a JSON string as it is: so it is written where it is to stand, and not looked over for escapes.
pub(crate) fn push_entry(
    waiting: &mut Vec<u8>,
    levels: u32,
    entry: &Entry,
) -> Result<(), AllocError>
    ensures { OnOk result (waiting.new.items ≡ waiting.old.items ++ (entry_line levels entry.now ++ codes "\n")) }
{
    waiting.extend_from_slice(b"{\"cmd\":\"")?;
    push_cmd(waiting, &entry.call.cmd, levels)?;
    waiting.extend_from_slice(b"\",\"reply\":\"")?;
    push_reply(waiting, &entry.reply)?;
    waiting.extend_from_slice(b"\",\"seat\":")?;
    push_number(waiting, u32::from(entry.call.seat.get()))?;
    waiting.extend_from_slice(b"}\n")
}
