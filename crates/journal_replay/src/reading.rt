//! The lines of a journal, read.
ghost use Rattle.std.specs.Prelude.{◌≡◌, ◌<◌, ◌≤◌, IfOk, IfSome, option_map};
ghost use Rattle.serde_json.specs.View.{view};
ghost use Rattle.journal_replay.specs.EntryFields.{HasFields, seat_at};
ghost use Rattle.journal_replay.specs.Members.{members_of};
ghost use Rattle.journal_replay.specs.Reading.{extent_of, header_in, header_of, json_of, last_in, levels_in, member_count, number_at, text_at, version_of, whole_at};

use crate::fields::Fields;
use crate::header::{Extent, Header};
use market_core::Market;
use market_types::{Cmd, LastNumber, Opening, SeatNo};
use serde_json::Value;
use std::alloc::{AllocError, Global};

/// What a text is as JSON, if it is any.
pub(crate) fn read_json(alloc: Global, text: &[u8]) -> Result<Option<Value>, AllocError>
    ensures { IfOk result (λ value. option_map view value ≡ json_of text.now) }
{
    let Ok(text) = str::from_utf8(text) else {
        return Ok(None);
    };
    match Value::from_str(alloc, text) {
        Ok(value) => Ok(Some(value)),
        Err(error) => {
            if error.is_memory() {
                return Err(AllocError);
            }
            Ok(None)
        }
    }
}

/// How many members a value has as an object.
fn member_count(value: &Value) -> usize
    ensures { result ≡ member_count (view value.now) }
{
    match value.as_object() {
        Some(map) => map.len(),
        None => 0,
    }
}

/// The text at a key.
fn text_at<'a>(value: &'a Value, key: &str) -> Option<&'a [u8]>
    ensures { option_map (λ text. text.now) result ≡ text_at key.now (view value.now) }
{
    let text = value.get(key).and_then(Value::as_str)?;
    Some(text.as_bytes())
}

/// The whole number at a key.
fn whole_at(value: &Value, key: &str) -> Option<u64>
    ensures { result ≡ whole_at key.now (view value.now) }
{
    value.get(key).and_then(Value::as_u64)
}

/// The whole number from 1 to `most` at a key.
fn number_at(value: &Value, key: &str, most: u32) -> Option<u32>
    ensures exact { result ≡ number_at key.now most (view value.now) }
    ensures within { IfSome result (λ n. (1 ≤ n) × (n ≤ most)) }
{
    let number = whole_at(value, key)?;
    if number == 0 || number > u64::from(most) {
        return None;
    }
    Some(number as u32)
}

/// A form of a journal's header.
#[derive(Clone, Copy)]
pub(crate) enum Version {
    /// Version 1.
    First,
    /// Version 2.
    Second,
    /// Version 3.
    Third,
}

/// The version of a header, by its number and how many keys it has.
fn version_of(value: &Value) -> Option<Version>
    ensures { result ≡ version_of (view value.now) }
{
    match (number_at(value, "journal", 3)?, member_count(value)) {
        (1, 4) => Some(Version::First),
        (2, 5) => Some(Version::Second),
        (3, 6) => Some(Version::Third),
        _ => None,
    }
}

impl Version {
    /// How many levels the market of a header has. Version 1 tells none, and they are three.
    fn levels_in(self, value: &Value) -> Option<u32>
        ensures { result ≡ levels_in (view value.now) self }
    {
        match self {
            Version::First => Some(3),
            Version::Second | Version::Third => number_at(value, "levels", 8),
        }
    }

    /// The last number of a header's market. Version 3 tells it, and before that it is the usual one.
    fn last_in(self, value: &Value) -> Option<LastNumber>
        ensures { result ≡ last_in (view value.now) self }
    {
        match self {
            Version::First | Version::Second => Some(LastNumber::USUAL),
            Version::Third => LastNumber::new(number_at(value, "last", 4_294_967_294)?),
        }
    }

    /// How many entries a journal may have. In version 3 it is any number.
    fn extent(self) -> Extent
        ensures { result ≡ extent_of self }
    {
        match self {
            Version::First | Version::Second => Extent::Limited,
            Version::Third => Extent::Endless,
        }
    }
}

/// The header that a value is, if it is one.
#[tactic(auto, unfolding(crate::specs::Reading::header_in))]
fn read_header(value: &Value) -> Option<Header>
    ensures { result ≡ header_in (view value.now) }
{
    let version = version_of(value)?;
    let levels = version.levels_in(value)?;
    let last = version.last_in(value)?;
    let base = number_at(value, "base", 65_536)?;
    let hard = number_at(value, "hard", 65_535)?;
    let seats = number_at(value, "seats", 64)? as u8;
    let opening = Opening {
        base,
        hard,
        seats,
        levels,
        last,
    };
    let extent = version.extent();
    Some(Header { opening, extent })
}

/// The market that a header opens, and how many entries the journal may have.
#[derive(Drop)]
pub(crate) struct Opened {
    pub market: Market,
    pub extent: Extent,
}

/// What a value opens as a header, if it is one.
pub(crate) fn open_market(alloc: Global, value: &Value) -> Result<Option<Opened>, AllocError>
    ensures { IfOk result (λ opened. opened ≡ header_of (view value.now)) }
{
    let Some(header) = read_header(value) else {
        return Ok(None);
    };
    // A header's numbers are in their ranges, so that memory alone can lack.
    let Ok(market) = Market::with_opening(alloc, header.opening) else {
        return Err(AllocError);
    };
    let extent = header.extent;
    Ok(Some(Opened { market, extent }))
}

/// A call, and the text that is to be its reply.
#[derive(Clone, Copy)]
pub(crate) struct Recorded<'a> {
    pub seat: SeatNo,
    pub cmd: Cmd,
    pub reply: &'a [u8],
}

/// The seat's number that a value tells, where it has 32 bits: no market has a greater one.
fn seat_at(value: &Value) -> Option<u32>
    ensures { result ≡ seat_at (view value.now) }
{
    u32::try_from(whole_at(value, "seat")?).ok()
}

/// The fields of the entry that a value is, if it is one. None of them where it has not three members.
#[tactic(auto, unfolding(crate::specs::Reading::entry_in))]
pub(crate) fn fields_in(value: &Value) -> Fields<'_>
    ensures { HasFields (members_of result) (view value.now) }
{
    if member_count(value) != 3 {
        return Fields::none();
    }
    Fields {
        cmd: text_at(value, "cmd"),
        reply: text_at(value, "reply"),
        seat: seat_at(value),
    }
}
