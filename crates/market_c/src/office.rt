//! Opening a market, one more seat of it, taking a seat back, and closing it.
ghost use Rattle.std.specs.Prelude.{◌≡◌, ◌≢◌, ◌++◌, [], pos, negsuc, length, true, is_some, Some, None, IfSome, IsSome, IsSomeAnd};
ghost use Rattle.edit_history.specs.Chronicled.{Chronicled};
ghost use Rattle.market_lock.specs.Headline.{IsGivenBy};
ghost use Rattle.market_lock.specs.Views.{opening_of};
ghost use Rattle.market_seat.specs.Seated.{OfSeat, place_of, callers};
ghost use Rattle.market_c.specs.Opened.{IsOpenedOn};

use crate::code::{BAD_NUMBER, BAD_SEAT, NO_MEMORY, NO_SEAT_LEFT, OK, of_open_fault, of_why_not};
use crate::place::Place;
use edit_history::{Keeping, Terms};
use market_seat::{Seat, Unclosed, Unmerged};
use market_types::{LastNumber, Opening};
use std::alloc::Global;
use std_alloc::room::Vacant;

/// What a market is opened with, as C has it.
#[repr(C)]
#[derive(Drop)]
pub struct MarketTerms {
    /// Parallelism while no control lives, 1 to 65,536.
    pub base: u32,
    /// How many workers there are at most, 1 to 65,535.
    pub hard: u32,
    /// How many seats there are, 1 to 64.
    pub seats: u32,
    /// How many places the history has, 1 to 1,048,576.
    pub places: u32,
    /// How many levels there are, 1 to 8.
    pub levels: u32,
    /// The last number that an arena, a stamp or a control gets, 1 to 4,294,967,294.
    pub last: u32,
    /// 0: every entry is kept. 1: until it is cut out. 2: none.
    pub keeping: u32,
}

/// What a market leaves, as C has it.
#[repr(C)]
#[derive(Drop)]
pub struct MarketTotals {
    /// How many calls were answered.
    pub calls: u64,
}

/// Opens a market on these terms in a place that holds no seat. The place then holds the first seat, with all others in it.
#[unsafe(no_mangle)]
pub extern "C" fn market_raw_open(alloc: Global, place: &mut Place, terms: &MarketTerms) -> i32
    ensures opened { result ≡ pos 0 → IsSomeAnd place.new.held.seat (IsOpenedOn terms.now) }
    ensures over { IsSome place.old.held.seat → result ≡ negsuc 1 }
    ensures unopened { result ≢ pos 0 → place.new.held.seat ≡ place.old.held.seat }
{
    if place.is_live() {
        return BAD_SEAT;
    }
    let Some(last) = LastNumber::new(terms.last) else {
        return BAD_NUMBER;
    };
    let Ok(seats) = u8::try_from(terms.seats) else {
        return BAD_NUMBER;
    };
    let keeping = match terms.keeping {
        0 => Keeping::Everything,
        1 => Keeping::InParts,
        2 => Keeping::Nothing,
        _ => return BAD_NUMBER,
    };
    let Ok(room) = Vacant::<Seat, Global>::take(alloc) else {
        return NO_MEMORY;
    };
    let opening = Opening {
        base: terms.base,
        hard: terms.hard,
        seats,
        levels: terms.levels,
        last,
    };
    let terms = Terms {
        opening,
        places: terms.places,
        keeping,
    };
    match Seat::open(alloc, terms) {
        Ok(seat) => {
            place.put(room, seat);
            OK
        }
        Err(fault) => {
            drop(room.free());
            of_open_fault(fault)
        }
    }
}

/// One seat that was not given out goes from `from` to `to`, a place that holds none.
#[unsafe(no_mangle)]
pub extern "C" fn market_raw_split(alloc: Global, from: &mut Place, to: &mut Place) -> i32
    ensures split { result ≡ pos 0 → IsSomeAnd from.old.held.seat (λ s. IsSomeAnd from.new.held.seat (λ t. IsSomeAnd to.new.held.seat (λ u. (u.office ≡ s.office) × (t.office ≡ s.office) × (t.hand ≡ s.hand) × (s.spare ≡ t.spare ++ callers u)))) }
    ensures over { IsSome to.old.held.seat → result ≡ negsuc 1 }
    ensures none { from.old.held.seat ≡ None → result ≢ pos 0 }
    ensures unsplit { result ≢ pos 0 → (from.new.held.seat ≡ from.old.held.seat) × (to.new.held.seat ≡ to.old.held.seat) }
{
    if to.is_live() {
        return BAD_SEAT;
    }
    let Ok(more) = Vacant::<Seat, Global>::take(alloc) else {
        return NO_MEMORY;
    };
    let Some((seat, room)) = from.take(alloc) else {
        drop(more.free());
        return BAD_SEAT;
    };
    let mut seat = seat;
    let split = seat.split(alloc);
    from.put(room, seat);
    match split {
        Some(part) => {
            to.put(more, part);
            OK
        }
        None => {
            drop(more.free());
            NO_SEAT_LEFT
        }
    }
}

/// Takes the seat `from`, one of the same market, back into `into`, with all that were not given out by it.
#[unsafe(no_mangle)]
pub extern "C" fn market_raw_merge(alloc: Global, into: &mut Place, from: &mut Place) -> i32
    requires { (s t : OfSeat) → into.old.held.seat ≡ Some s → from.old.held.seat ≡ Some t → t.office ≡ s.office }
    ensures merged { result ≡ pos 0 → IsSomeAnd into.old.held.seat (λ s. IsSomeAnd from.old.held.seat (λ u. IsSomeAnd into.new.held.seat (λ t. (t.office ≡ s.office) × (t.hand ≡ s.hand) × (t.spare ≡ s.spare ++ callers u)))) }
    ensures empty { result ≡ pos 0 → from.new.held.seat ≡ None }
    ensures none_into { into.old.held.seat ≡ None → result ≡ negsuc 1 }
    ensures none_from { from.old.held.seat ≡ None → result ≡ negsuc 1 }
    ensures placed { IsSome into.old.held.seat → IfSome from.old.held.seat (λ u. is_some (place_of u.hand) ≡ true → result ≡ pos 7) }
    ensures unmerged { result ≢ pos 0 → (into.new.held.seat ≡ into.old.held.seat) × (from.new.held.seat ≡ from.old.held.seat) }
{
    let Some((ours, room)) = into.take(alloc) else {
        return BAD_SEAT;
    };
    let mut ours = ours;
    let Some((theirs, freed)) = from.take(alloc) else {
        into.put(room, ours);
        return BAD_SEAT;
    };
    let merged = ours.merge(theirs);
    into.put(room, ours);
    match merged {
        Ok(()) => {
            drop(freed.free());
            OK
        }
        Err(Unmerged { seat, why }) => {
            from.put(freed, seat);
            of_why_not(why)
        }
    }
}

/// Ends the market and frees it, once all seats are merged into this one.
#[unsafe(no_mangle)]
pub extern "C" fn market_raw_close(
    alloc: Global,
    place: &mut Place,
    totals: &mut MarketTotals,
) -> i32
    ensures closed { result ≡ pos 0 → IsSomeAnd place.old.held.seat (λ s. (c : Chronicled) × IsGivenBy (opening_of s.office.terms) c × (totals.new.calls ≡ length c.log)) }
    ensures all { result ≡ pos 0 → IsSomeAnd place.old.held.seat (λ s. length (callers s) ≡ s.office.terms.opening.seats) }
    ensures empty { result ≡ pos 0 → place.new.held.seat ≡ None }
    ensures none { place.old.held.seat ≡ None → result ≡ negsuc 1 }
    ensures early { IfSome place.old.held.seat (λ s. length (callers s) ≢ s.office.terms.opening.seats → place_of s.hand ≡ None → result ≡ pos 6) }
    ensures unclosed { result ≢ pos 0 → (place.new.held.seat ≡ place.old.held.seat) × (totals.new ≡ totals.old) }
{
    let Some((seat, room)) = place.take(alloc) else {
        return BAD_SEAT;
    };
    match seat.close(alloc) {
        Ok(closed) => {
            totals.calls = closed.calls;
            drop(closed);
            drop(room.free());
            OK
        }
        Err(Unclosed { seat, why }) => {
            place.put(room, seat);
            of_why_not(why)
        }
    }
}
