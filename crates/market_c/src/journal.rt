//! The journal of a market: cut by a seat where its entries are kept in parts, and read as text.
ghost use Rattle.std.specs.Prelude.{◌≡◌, ◌≢◌, ◌++◌, [], codes, pos, negsuc, length, Some, None, IsSome, IsSomeAnd, IfOk, IfErr, OnErr};
ghost use Rattle.journal_replay.specs.Journal.{header_line};
ghost use Rattle.edit_history.specs.declared.part.Part.{Part};
ghost use Rattle.journal_text.specs.Texts.{text_of};
ghost use Rattle.market_lock.specs.Seen.{Looks, OthersCut};
ghost use Rattle.market_seat.specs.Seated.{who, IsSameSeat};
ghost use Rattle.market_c.specs.Asked.{Goes};
ghost use Rattle.market_c.specs.Journals.{header_of, IsCutInto, CutsInto, HandsOut};

use crate::code::{BAD_JOURNAL, BAD_SEAT, BUSY, NO_MEMORY, NO_PART, OK, UNFIT, UNREAD};
use crate::journal_place::JournalPlace;
use crate::place::Place;
use edit_history::{Part, Terms};
use journal_replay::{Extent, Header};
use journal_text::Unread;
use market_seat::{Cutting, Seat};
use std::alloc::{AllocError, Global};
use std_alloc::room::Vacant;

/// What is reported to C of a part of a history.
#[repr(C)]
#[derive(Drop)]
pub struct MarketPart {
    /// How many calls the history has before it.
    pub from: u64,
    /// How many calls it has.
    pub calls: u64,
}

impl MarketPart {
    /// What is reported of this part.
    pub(crate) fn of(part: &Part) -> MarketPart
        ensures from { result.from ≡ part.now.from }
        ensures calls { result.calls ≡ length part.now.entries.items }
    {
        MarketPart {
            from: part.from,
            calls: part.entries.len() as u64,
        }
    }
}

/// The header of the journal of a market on these terms.
fn header_on(terms: Terms) -> Header
    ensures exact { result ≡ header_of terms }
{
    Header {
        opening: terms.opening,
        extent: Extent::Endless,
    }
}

/// A new journal for the market of the seat.
fn begin(alloc: Global, seat: &Seat) -> Result<Unread, AllocError>
    ensures exact { IfOk result (λ u. text_of u ≡ header_line (header_of seat.now.office.terms) ++ codes "\n") }
{
    Unread::new(alloc, header_on(seat.terms()))
}

/// An attempt at a cut by the seat, into a journal of which no part waits. The `Err` is the number of why nothing was cut.
fn cut_into(alloc: Global, seat: &mut Seat, unread: &mut Unread) -> Result<MarketPart, i32>
    requires free { unread.old.page ≡ None }
    ensures done { IfOk result (λ told. (part : Part) × IsCutInto part told seat.old seat.new unread.old unread.new) }
    ensures none { IfErr result (λ code. code ≡ pos 9 → IsSameSeat seat.old seat.new × Looks (who seat.old.hand) (who seat.new.hand) × OthersCut (who seat.old.hand) (who seat.new.hand)) }
    ensures unasked { IfErr result (λ code. code ≢ pos 9 → seat.new ≡ seat.old) }
    ensures unwritten { OnErr result (unread.new ≡ unread.old) }
    ensures not { IfErr result (λ code. code ≢ pos 0) }
{
    let terms = seat.terms();
    let Ok(spare) = Vec::with_capacity(alloc, terms.opening.seats as usize) else {
        return Err(NO_MEMORY);
    };
    match seat.try_cut(spare) {
        Cutting::Made(Some(part)) => {
            let told = MarketPart::of(&part);
            unread.put(terms.opening.levels, part);
            Ok(told)
        }
        Cutting::Made(None) => Err(NO_PART),
        Cutting::Busy(_) => Err(BUSY),
        Cutting::Unfit(_) => Err(UNFIT),
    }
}

/// A journal for the market of the seat, in a place that holds none. Its header is there to be read.
#[unsafe(no_mangle)]
pub extern "C" fn market_raw_journal_open(
    alloc: Global,
    place: &mut Place,
    journal: &mut JournalPlace,
) -> i32
    ensures opened { result ≡ pos 0 → IsSomeAnd place.old.held.seat (λ s. IsSomeAnd journal.new.held.unread (λ u. text_of u ≡ header_line (header_of s.office.terms) ++ codes "\n")) }
    ensures same { place.new.held.seat ≡ place.old.held.seat }
    ensures over { IsSome journal.old.held.unread → result ≡ negsuc 6 }
    ensures none { place.old.held.seat ≡ None → result ≢ pos 0 }
    ensures unopened { result ≢ pos 0 → journal.new.held.unread ≡ journal.old.held.unread }
{
    if journal.is_live() {
        return BAD_JOURNAL;
    }
    let Some((seat, room)) = place.take(alloc) else {
        return BAD_SEAT;
    };
    let begun = begin(alloc, &seat);
    place.put(room, seat);
    let Ok(unread) = begun else {
        return NO_MEMORY;
    };
    let Ok(page) = Vacant::<Unread, Global>::take(alloc) else {
        return NO_MEMORY;
    };
    journal.put(page, unread);
    OK
}

/// The seat, which is not placed, cuts the next part of its market's history out, and its lines go to the end of the journal's text.
/// Where the part that was cut before is not read yet, it is `UNREAD`, and nothing was asked.
#[unsafe(no_mangle)]
pub extern "C" fn market_raw_cut(
    alloc: Global,
    place: &mut Place,
    journal: &mut JournalPlace,
    told: &mut MarketPart,
) -> i32
    ensures done { result ≡ pos 0 → CutsInto told.new place.old.held.seat place.new.held.seat journal.old.held.unread journal.new.held.unread }
    ensures none { result ≡ pos 9 → Goes place.old.held.seat place.new.held.seat (λ p q. Looks p q × OthersCut p q) }
    ensures unasked { result ≢ pos 0 → result ≢ pos 9 → place.new.held.seat ≡ place.old.held.seat }
    ensures unwritten { result ≢ pos 0 → (journal.new.held.unread ≡ journal.old.held.unread) × (told.new ≡ told.old) }
    ensures no_journal { journal.old.held.unread ≡ None → result ≡ negsuc 6 }
    ensures no_seat { place.old.held.seat ≡ None → result ≢ pos 0 }
{
    let Some((unread, page)) = journal.take(alloc) else {
        return BAD_JOURNAL;
    };
    let waits = unread.waits();
    if waits {
        journal.put(page, unread);
        return UNREAD;
    }
    let Some((seat, room)) = place.take(alloc) else {
        journal.put(page, unread);
        return BAD_SEAT;
    };
    let mut seat = seat;
    let mut unread = unread;
    let cut = cut_into(alloc, &mut seat, &mut unread);
    place.put(room, seat);
    journal.put(page, unread);
    match cut {
        Ok(part) => {
            *told = part;
            OK
        }
        Err(code) => code,
    }
}

/// The next bytes of the journal's text go to the buffer, and how many is written: 0 where all that was cut is read. Out of memory
/// is `NO_MEMORY`, and nothing is then lost.
#[unsafe(no_mangle)]
pub extern "C" fn market_raw_journal_read(
    alloc: Global,
    journal: &mut JournalPlace,
    buffer: &mut [u8],
    written: &mut u64,
) -> i32
    ensures done { result ≡ pos 0 → HandsOut written.new buffer.old buffer.new journal.old.held.unread journal.new.held.unread }
    ensures unread { result ≢ pos 0 → (journal.new.held.unread ≡ journal.old.held.unread) × (buffer.new ≡ buffer.old) × (written.new ≡ written.old) }
    ensures no_journal { journal.old.held.unread ≡ None → result ≡ negsuc 6 }
{
    let Some((unread, page)) = journal.take(alloc) else {
        return BAD_JOURNAL;
    };
    let mut unread = unread;
    let read = unread.read(alloc, buffer);
    journal.put(page, unread);
    match read {
        Ok(count) => {
            *written = count as u64;
            OK
        }
        Err(_) => NO_MEMORY,
    }
}

/// A journal of which all is read goes. Else it is `UNREAD`.
#[unsafe(no_mangle)]
pub extern "C" fn market_raw_journal_close(alloc: Global, journal: &mut JournalPlace) -> i32
    ensures closed { result ≡ pos 0 → IsSomeAnd journal.old.held.unread (λ u. text_of u ≡ []) }
    ensures empty { result ≡ pos 0 → journal.new.held.unread ≡ None }
    ensures unclosed { result ≢ pos 0 → journal.new.held.unread ≡ journal.old.held.unread }
    ensures no_journal { journal.old.held.unread ≡ None → result ≡ negsuc 6 }
{
    let Some((unread, page)) = journal.take(alloc) else {
        return BAD_JOURNAL;
    };
    if !unread.is_empty() {
        journal.put(page, unread);
        return UNREAD;
    }
    drop(unread);
    drop(page.free());
    OK
}
