//! Journals.
use crate::author::Author;
use crate::scripts::push_seat;
use crate::shape::Shape;
use anyhow::Result;
use byte_devices::TestSink;
use journal_replay::{Extent, Header, write_header};
use market_core::Market;
use market_texts::{push_cmd, push_reply};
use market_types::{Call, Cmd, Reply};
use std::alloc::{AllocError, Global};

/// Room for a header's line.
const LONGEST_HEADER: usize = 256;

/// About as many bytes as an entry's line has.
const USUAL_LINE: usize = 80;

/// How the lines of a journal are spelled.
#[derive(Clone, Copy)]
pub enum Style {
    /// As they are written here.
    Ours,
    /// With a space behind each colon and comma.
    Spaced,
    /// With the seat first.
    SeatFirst,
    /// With each space of a text as an escape.
    Escaped,
}

impl Style {
    /// Those of other tools.
    pub const FOREIGN: [Style; 3] = [Style::Spaced, Style::SeatFirst, Style::Escaped];
}

/// The texts of an entry.
#[derive(Drop)]
struct Texts {
    cmd: Vec<u8>,
    reply: Vec<u8>,
}

impl Texts {
    /// Makes them those of this entry, in a market of so many levels.
    #[inline(always)]
    fn tell(&mut self, cmd: &Cmd, reply: &Reply, levels: u32) -> Result<(), AllocError> {
        self.cmd.clear();
        push_cmd(&mut self.cmd, cmd, levels)?;
        self.reply.clear();
        push_reply(&mut self.reply, reply)
    }
}

/// Puts a text behind the journal in which each space is an escape.
fn push_escaped(journal: &mut Vec<u8>, text: &[u8]) -> Result<(), AllocError> {
    for byte in text {
        match *byte {
            b' ' => journal.extend_from_slice(b"\\u0020")?,
            other => journal.push(other)?,
        }
    }
    Ok(())
}

/// Puts parts behind the journal.
fn push_parts(journal: &mut Vec<u8>, parts: &[&[u8]]) -> Result<(), AllocError> {
    for part in parts {
        journal.extend_from_slice(part)?;
    }
    Ok(())
}

/// Puts an entry behind the journal up to its end, as it is written here.
#[inline(always)]
fn push_plain(journal: &mut Vec<u8>, call: &Call, texts: &Texts) -> Result<(), AllocError> {
    push_parts(
        journal,
        &[b"{\"cmd\":\"", &texts.cmd, b"\",\"reply\":\"", &texts.reply],
    )?;
    journal.extend_from_slice(b"\",\"seat\":")?;
    push_seat(journal, call)
}

/// Puts an entry behind the journal up to its end, with a space behind each colon and comma.
#[inline(always)]
fn push_spaced(journal: &mut Vec<u8>, call: &Call, texts: &Texts) -> Result<(), AllocError> {
    push_parts(
        journal,
        &[
            b"{\"cmd\": \"",
            &texts.cmd,
            b"\", \"reply\": \"",
            &texts.reply,
        ],
    )?;
    journal.extend_from_slice(b"\", \"seat\": ")?;
    push_seat(journal, call)
}

/// Puts an entry behind the journal up to its end, the seat first.
#[inline(always)]
fn push_seat_first(journal: &mut Vec<u8>, call: &Call, texts: &Texts) -> Result<(), AllocError> {
    journal.extend_from_slice(b"{\"seat\":")?;
    push_seat(journal, call)?;
    push_parts(
        journal,
        &[
            b",\"cmd\":\"",
            &texts.cmd,
            b"\",\"reply\":\"",
            &texts.reply,
            b"\"",
        ],
    )
}

/// Puts an entry behind the journal up to its end, with each space of its texts as an escape.
#[inline(always)]
fn push_with_escapes(journal: &mut Vec<u8>, call: &Call, texts: &Texts) -> Result<(), AllocError> {
    journal.extend_from_slice(b"{\"cmd\":\"")?;
    push_escaped(journal, &texts.cmd)?;
    journal.extend_from_slice(b"\",\"reply\":\"")?;
    push_escaped(journal, &texts.reply)?;
    journal.extend_from_slice(b"\",\"seat\":")?;
    push_seat(journal, call)
}

/// Puts the line of an entry behind the journal.
fn push_entry(
    journal: &mut Vec<u8>,
    style: Style,
    call: &Call,
    texts: &Texts,
) -> Result<(), AllocError> {
    match style {
        Style::Ours => push_plain(journal, call, texts)?,
        Style::Spaced => push_spaced(journal, call, texts)?,
        Style::SeatFirst => push_seat_first(journal, call, texts)?,
        Style::Escaped => push_with_escapes(journal, call, texts)?,
    }
    journal.extend_from_slice(b"}\n")
}

/// Gives a call to the market, and puts its entry behind the journal.
fn record(
    alloc: Global,
    journal: &mut Vec<u8>,
    style: Style,
    market: &mut Market,
    texts: &mut Texts,
    call: &Call,
) -> Result<(), AllocError> {
    if call.seat.get() >= market.seats() {
        return Ok(());
    }
    let reply = market.apply(alloc, call.seat, call.cmd)?;
    texts.tell(&call.cmd, &reply, market.levels())?;
    push_entry(journal, style, call, texts)
}

/// Puts the header of a market's journal first.
fn push_header(alloc: Global, journal: &mut Vec<u8>, market: &Market) -> Result<()> {
    let header = Header::of(market, Extent::Endless);
    let mut sink = TestSink::new(Vec::with_capacity(alloc, LONGEST_HEADER)?);
    write_header(alloc, header, &mut sink)?;
    journal.extend_from_slice(sink.taken())?;
    Ok(())
}

/// Gives so many calls to the market, and puts their entries behind the journal.
#[inline(always)]
fn push_entries(
    alloc: Global,
    journal: &mut Vec<u8>,
    style: Style,
    market: &mut Market,
    author: &mut Author,
    entries: u32,
) -> Result<(), AllocError> {
    let mut texts = Texts {
        cmd: Vec::new(alloc),
        reply: Vec::new(alloc),
    };
    for _ in 0..entries {
        let call = author.next_call();
        record(alloc, journal, style, market, &mut texts, &call)?;
    }
    Ok(())
}

/// A journal of so many entries of this market. One that is forged has one entry more, with a reply that is not due.
fn journal_of(
    alloc: Global,
    market: &mut Market,
    author: &mut Author,
    style: Style,
    entries: u32,
    forged: bool,
) -> Result<Vec<u8>> {
    let mut journal = Vec::with_capacity(alloc, (entries as usize).saturating_mul(USUAL_LINE))?;
    push_header(alloc, &mut journal, market)?;
    push_entries(alloc, &mut journal, style, market, author, entries)?;
    if forged {
        journal.extend_from_slice(b"{\"cmd\":\"limit\",\"reply\":\"ok\",\"seat\":0}\n")?;
    }
    Ok(journal)
}

/// The same of a new market of this shape.
pub fn journal(
    alloc: Global,
    author: &mut Author,
    shape: Shape,
    style: Style,
    entries: u32,
    forged: bool,
) -> Result<Vec<u8>> {
    let mut market = Market::with_opening(alloc, shape.opening())?;
    journal_of(alloc, &mut market, author, style, entries, forged)
}
