//! The texts of a line's strings: as they stand there, or with their escapes undone in room that is kept.
//!
//! Nearly every text is plain: bytes of ASCII that print, with no quote and no backslash. So where a text ends is found, and that it is plain, by one pass over
//! 16 bytes at a time (`plain_front`), where a search for the quote and a look at each byte before it were loops of their own, each of which ends at
//! a place that is hard to predict. A replay takes a sixth less time by it.
ghost use Rattle.std.specs.Prelude.{◌≡◌, ◌+◌, ◌<◌, ◌≤◌, ◌++◌, ◌∷◌, [], ℕ, List, true, drop, get_or, length, take, IfSome};
ghost use Rattle.json.specs.Lex.{token};
ghost use Rattle.json.specs.Token.{string};
ghost use Rattle.journal_replay.specs.Cuts.{IsCut, IsInside};
ghost use Rattle.journal_replay.specs.Plain.{NoQuote, are_plain, is_plain};

use memchr::memchr;
use std::alloc::Global;
use std::simd::prelude::*;

/// Room for the texts of a line's first three members, which is used again for each line.
#[derive(Drop)]
pub(crate) struct Texts {
    pub(crate) first: Vec<u8>,
    pub(crate) second: Vec<u8>,
    pub(crate) third: Vec<u8>,
}

impl Texts {
    /// Before the first line. It takes no memory.
    pub(crate) fn new(alloc: Global) -> Self {
        Texts {
            first: Vec::new(alloc),
            second: Vec::new(alloc),
            third: Vec::new(alloc),
        }
    }
}

/// The byte stands in a text as it is.
#[inline(always)]
fn is_plain(byte: u8) -> bool
    ensures { result ≡ is_plain byte }
{
    (byte >= 32) & (byte < 127) & (byte != b'"') & (byte != b'\\')
}

/// So many of the 16 bytes from an index on are plain, up to the first that is not. Nothing but speed rests on there being no more.
// By one vector. A quote and a backslash become 0, so that what is left to compare with is one range.
#[inline(always)]
fn plain_run(text: &[u8], index: usize) -> usize
    requires room { index + 16 ≤ length text.now }
    ensures within { result ≤ 16 }
    ensures plain { (k : ℕ) → index ≤ k → k < index + result → is_plain (get_or text.now k 0) ≡ true }
{
    let none = u8x16::splat(0);
    let bytes = u8x16::from_slice(&text[index..]);
    let bytes = bytes.simd_eq(u8x16::splat(b'"')).select(none, bytes);
    let bytes = bytes.simd_eq(u8x16::splat(b'\\')).select(none, bytes);
    let other = (bytes - u8x16::splat(32)).simd_gt(u8x16::splat(94));
    let bits = other.to_bitmask();
    if bits == 0 {
        return 16;
    }
    bits.trailing_zeros() as usize
}

/// With so many plain bytes a text begins, up to the first that is not. Nothing but speed rests on there being no more.
#[inline(always)]
fn plain_front(text: &[u8]) -> usize
    ensures within { result ≤ length text.now }
    ensures plain { are_plain (take result text.now) ≡ true }
{
    let mut count = 0;
    while count + 16 <= text.len() {
        let run = plain_run(text, count);
        count += run;
        if run < 16 {
            return count;
        }
    }
    while count < text.len() && is_plain(text[count]) {
        count += 1;
    }
    count
}

/// What follows a label.
#[inline(always)]
pub(crate) fn behind<'a>(text: &'a [u8], label: &[u8]) -> Option<&'a [u8]>
    ensures { IfSome result (λ rest. text.entry.now ≡ label.now ++ rest.now) }
{
    text.strip_prefix(label)
}

/// The byte of ASCII for which the escape stands with which a text begins, as `\u0020`, and what follows it.
fn cut_escape(text: &[u8]) -> Option<(u8, &[u8])>
    ensures inside { IfSome result (λ cut. (tail : List ℕ) → IsInside (text.now ++ tail) (cut.1.now ++ tail) (cut.0 ∷ [])) }
    ensures behind { IfSome result (λ cut. (6 ≤ length text.now) × (cut.1.now ≡ drop 6 text.now)) }
{
    let (first, more) = behind(text, b"\\u00")?.split_first()?;
    let (second, rest) = more.split_first()?;
    let high = (*first as char).to_digit(16)?;
    let low = (*second as char).to_digit(16)?;
    if high >= 8 {
        return None;
    }
    Some(((high * 16 + low) as u8, rest))
}

/// The text that stands inside of a string, its escapes undone in the room. None of one with other escapes than those of bytes of
/// ASCII as `\u0020`, of one that is no text, and where the room gets no memory.
// Apart, since nearly no text has an escape. Where an escape stands is found by the pass that finds what stands before it to be plain.
#[inline(never)]
fn undo<'a>(inside: &[u8], room: &'a mut Vec<u8>) -> Option<&'a [u8]>
    ensures { IfSome result (λ text. (tail : List ℕ) → IsInside (inside.now ++ tail) tail text.now) }
{
    room.clear();
    let mut rest = inside;
    let mut at = plain_front(rest);
    while at < rest.len() {
        room.extend_from_slice(&rest[..at]).ok()?;
        let (byte, more) = cut_escape(&rest[at..])?;
        room.push(byte).ok()?;
        rest = more;
        at = plain_front(rest);
    }
    room.extend_from_slice(rest).ok()?;
    Some(room.as_slice())
}

/// What stands before the first quote of a text, and what follows the quote.
#[inline(always)]
fn cut_quote(text: &[u8]) -> Option<(&[u8], &[u8])>
    ensures cut { IfSome result (λ cut. text.now ≡ cut.0.now ++ 34 ∷ cut.1.now) }
    ensures first { IfSome result (λ cut. NoQuote cut.0.now) }
{
    let at = memchr(b'"', text)?;
    Some((&text[..at], &text[at + 1..]))
}

/// The text before the first quote, and what follows the quote. Escapes are undone in the room, if any.
#[inline(always)]
pub(crate) fn cut_quoted<'a>(
    text: &'a [u8],
    room: Option<&'a mut Vec<u8>>,
) -> Option<(&'a [u8], &'a [u8])>
    ensures { IfSome result (λ cut. IsCut (34 ∷ text.entry.now) cut.1.now (token (string cut.0.now) ∷ [])) }
{
    let count = plain_front(text);
    let (first, rest) = text[count..].split_first()?;
    if *first == b'"' {
        return Some((&text[..count], rest));
    }
    let (inside, rest) = cut_quote(text)?;
    Some((undo(inside, room?)?, rest))
}
