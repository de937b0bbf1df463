//! Ending a market whose history is wanted: what it still keeps of it goes to a journal.
ghost use Rattle.std.specs.Prelude.{◌≡◌, ◌≢◌, ◌≤◌, pos, negsuc, length, None, IsSome, IsSomeAnd, IfSome, IfOk, IfErr, IsErrOf};
ghost use Rattle.edit_history.specs.Chronicled.{market_of, most_forgotten};
ghost use Rattle.edit_history.specs.Parts.{EndsWith};
ghost use Rattle.edit_history.specs.Places.{placed};
ghost use Rattle.edit_history.specs.declared.keeping.Keeping.TheVariants.{Nothing};
ghost use Rattle.edit_history.specs.declared.part.Part.{Part};
ghost use Rattle.market_seat.specs.Seated.{callers, place_of};
ghost use Rattle.market_c.specs.Endings.{IsPutInto, EndsInto, ClosesInto};

use crate::code::{BAD_JOURNAL, BAD_SEAT, NO_PART, OK, UNREAD, of_why_not};
use crate::journal::MarketPart;
use crate::journal_place::JournalPlace;
use crate::office::MarketTotals;
use crate::place::Place;
use edit_history::{Chronicle, Keeping, Part};
use journal_text::Unread;
use market_lock::Closed;
use market_seat::Unclosed;
use std::alloc::Global;

/// What is reported of a market that has ended.
#[derive(Drop)]
struct Ended {
    calls: u64,
    part: MarketPart,
}

/// The entries that a history without workers still keeps, as its last part: none where it is so long that nothing is cut of it.
fn last_part(alloc: Global, chronicle: Chronicle) -> Part
    requires unplaced { placed (market_of chronicle) ≡ 0 }
    ensures ends { EndsWith chronicle.log result.from result.entries.items }
    ensures from { length chronicle.log ≤ most_forgotten → result.from ≡ chronicle.from }
    ensures whole { chronicle.from ≡ 0 → result.entries.items ≡ chronicle.log }
{
    let mut chronicle = chronicle;
    let calls = chronicle.len();
    match chronicle.cut(Vec::new(alloc)) {
        Some(part) => part,
        None => Part {
            from: calls,
            entries: Vec::new(alloc),
        },
    }
}

/// Puts the lines of the last part behind a journal of which no part waits, in a market of so many levels.
fn put_last(alloc: Global, levels: u32, closed: Closed, unread: &mut Unread) -> Ended
    requires free { unread.old.page ≡ None }
    requires unplaced { placed (market_of closed.chronicle) ≡ 0 }
    ensures calls { result.calls ≡ closed.calls }
    ensures part { (part : Part) × IsPutInto part result.part levels closed.chronicle unread.old unread.new }
{
    let Closed {
        chronicle,
        calls,
        workers: _,
    } = closed;
    let part = last_part(alloc, chronicle);
    let told = MarketPart::of(&part);
    unread.put(levels, part);
    Ended { calls, part: told }
}

/// Ends the market of the place's seat, into a journal of which no part waits. The `Err` is the number of why it goes on.
fn end_into(alloc: Global, place: &mut Place, unread: &mut Unread) -> Result<Ended, i32>
    requires free { unread.old.page ≡ None }
    ensures done { IfOk result (λ told. IsSomeAnd place.old.held.seat (λ s. EndsInto told.calls told.part s unread.old unread.new)) }
    ensures all { IfOk result (λ _. IsSomeAnd place.old.held.seat (λ s. length (callers s) ≡ s.office.terms.opening.seats)) }
    ensures empty { IfOk result (λ _. place.new.held.seat ≡ None) }
    ensures not { IfErr result (λ code. code ≢ pos 0) }
    ensures same { IfErr result (λ _. (place.new.held.seat ≡ place.old.held.seat) × (unread.new ≡ unread.old)) }
    ensures none { place.old.held.seat ≡ None → IsErrOf result (negsuc 1) }
    ensures nothing { IfSome place.old.held.seat (λ s. s.office.terms.keeping ≡ Nothing → IsErrOf result (pos 9)) }
    ensures early { IfSome place.old.held.seat (λ s. s.office.terms.keeping ≢ Nothing → length (callers s) ≢ s.office.terms.opening.seats → place_of s.hand ≡ None → IsErrOf result (pos 6)) }
{
    let Some((seat, room)) = place.take(alloc) else {
        return Err(BAD_SEAT);
    };
    let terms = seat.terms();
    if terms.keeping == Keeping::Nothing {
        place.put(room, seat);
        return Err(NO_PART);
    }
    match seat.close(alloc) {
        Ok(closed) => {
            drop(room.free());
            Ok(put_last(alloc, terms.opening.levels, closed, unread))
        }
        Err(Unclosed { seat, why }) => {
            place.put(room, seat);
            Err(of_why_not(why))
        }
    }
}

/// Ends the market and frees it, once all seats are merged into this one, and the lines of the last part of its history go to the
/// end of the journal's text: all of it where every entry is kept, and what was not cut yet where they are kept in parts. A market
/// that keeps none is `NO_PART`, and where the part that was cut before is not read yet it is `UNREAD`: it then goes on.
#[unsafe(no_mangle)]
pub extern "C" fn market_raw_close_into(
    alloc: Global,
    place: &mut Place,
    journal: &mut JournalPlace,
    totals: &mut MarketTotals,
    told: &mut MarketPart,
) -> i32
    ensures closed { result ≡ pos 0 → ClosesInto totals.new.calls told.new place.old.held.seat journal.old.held.unread journal.new.held.unread }
    ensures all { result ≡ pos 0 → IsSomeAnd place.old.held.seat (λ s. length (callers s) ≡ s.office.terms.opening.seats) }
    ensures empty { result ≡ pos 0 → place.new.held.seat ≡ None }
    ensures unclosed { result ≢ pos 0 → (place.new.held.seat ≡ place.old.held.seat) × (journal.new.held.unread ≡ journal.old.held.unread) }
    ensures unwritten { result ≢ pos 0 → (totals.new ≡ totals.old) × (told.new ≡ told.old) }
    ensures no_journal { journal.old.held.unread ≡ None → result ≡ negsuc 6 }
    ensures no_seat { place.old.held.seat ≡ None → IfSome journal.old.held.unread (λ u. u.page ≡ None → result ≡ negsuc 1) }
    ensures waits { IfSome journal.old.held.unread (λ u. IsSome u.page → result ≡ pos 8) }
    ensures nothing { IfSome place.old.held.seat (λ s. s.office.terms.keeping ≡ Nothing → IfSome journal.old.held.unread (λ u. u.page ≡ None → result ≡ pos 9)) }
    ensures early { IfSome place.old.held.seat (λ s. s.office.terms.keeping ≢ Nothing → length (callers s) ≢ s.office.terms.opening.seats → place_of s.hand ≡ None → IfSome journal.old.held.unread (λ u. u.page ≡ None → result ≡ pos 6)) }
{
    let Some((unread, page)) = journal.take(alloc) else {
        return BAD_JOURNAL;
    };
    let waits = unread.waits();
    if waits {
        journal.put(page, unread);
        return UNREAD;
    }
    let mut unread = unread;
    let ended = end_into(alloc, place, &mut unread);
    journal.put(page, unread);
    match ended {
        Ok(Ended { calls, part }) => {
            totals.calls = calls;
            *told = part;
            OK
        }
        Err(code) => code,
    }
}
