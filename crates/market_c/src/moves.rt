//! The commands that move a seat.
ghost use Rattle.std.specs.Prelude.{◌≡◌, ◌≢◌, pos, negsuc, Some, None};
ghost use Rattle.market_types.specs.declared.command.Cmd.TheVariants.{Join, Stay, Leave};
ghost use Rattle.market_types.specs.declared.reply.Reply.TheVariants.{Placed, Idle, Stays, Recalled, Left};
ghost use Rattle.market_lock.specs.Moves.{Called};
ghost use Rattle.market_c.specs.Asked.{Goes, Tells, IsAt};

use crate::code::{BAD_SEAT, BUSY, HISTORY_FULL, IDLE, NO_MEMORY, OK, RECALLED, UNFIT};
use crate::place::Place;
use edit_history::CallFault;
use market_seat::{Answer, Asked, Kept};
use std::alloc::Global;

/// The seat asks for an arena in need of a worker. Where it is then placed, the arena's number is written; `IDLE` says that no
/// arena is in need. A seat that is placed is `UNFIT`.
#[unsafe(no_mangle)]
pub extern "C" fn market_raw_join(alloc: Global, place: &mut Place, arena: &mut u32) -> i32
    ensures done { result ≡ pos 0 → Goes place.old.held.seat place.new.held.seat (λ p q. Called p Join (Placed arena.new) q) }
    ensures placed { result ≡ pos 0 → IsAt place.new.held.seat (Some arena.new) }
    ensures idle { result ≡ pos 3 → Goes place.old.held.seat place.new.held.seat (λ p q. Called p Join Idle q) }
    ensures unfit { result ≡ negsuc 5 → place.new.held.seat ≡ place.old.held.seat }
    ensures told { Tells result Join place.old.held.seat place.new.held.seat }
    ensures unwritten { result ≢ pos 0 → arena.new ≡ arena.old }
{
    let Some((seat, room)) = place.take(alloc) else {
        return BAD_SEAT;
    };
    let Asked { seat, answer } = seat.try_join(alloc);
    place.put(room, seat);
    match answer {
        Answer::Made(Some(at)) => {
            *arena = at.get();
            OK
        }
        Answer::Made(None) => IDLE,
        Answer::Failed(CallFault::HistoryFull) => HISTORY_FULL,
        Answer::Failed(CallFault::Memory) => NO_MEMORY,
        Answer::Busy => BUSY,
        Answer::Unfit => UNFIT,
    }
}

/// The seat asks whether its arena still wants it. The arena's number is written; `RECALLED` says that the seat is no longer placed
/// at it. A seat that is not placed is `UNFIT`.
#[unsafe(no_mangle)]
pub extern "C" fn market_raw_stay(alloc: Global, place: &mut Place, arena: &mut u32) -> i32
    ensures done { result ≡ pos 0 → Goes place.old.held.seat place.new.held.seat (λ p q. Called p Stay (Stays arena.new) q) }
    ensures placed { result ≡ pos 0 → IsAt place.new.held.seat (Some arena.new) }
    ensures recalled { result ≡ pos 4 → Goes place.old.held.seat place.new.held.seat (λ p q. Called p Stay (Recalled arena.new) q) }
    ensures unplaced { result ≡ pos 4 → IsAt place.new.held.seat None }
    ensures unfit { result ≡ negsuc 5 → place.new.held.seat ≡ place.old.held.seat }
    ensures told { Tells result Stay place.old.held.seat place.new.held.seat }
    ensures unwritten { result ≢ pos 0 → result ≢ pos 4 → arena.new ≡ arena.old }
{
    let Some((seat, room)) = place.take(alloc) else {
        return BAD_SEAT;
    };
    let Asked { seat, answer } = seat.try_stay(alloc);
    place.put(room, seat);
    match &answer {
        Answer::Made(Kept::Wanted(at)) => {
            *arena = at.get();
            OK
        }
        Answer::Made(Kept::Recalled(at)) => {
            *arena = at.get();
            RECALLED
        }
        Answer::Failed(CallFault::HistoryFull) => HISTORY_FULL,
        Answer::Failed(CallFault::Memory) => NO_MEMORY,
        Answer::Busy => BUSY,
        Answer::Unfit => UNFIT,
    }
}

/// The seat leaves its arena, whose number is written. A seat that is not placed is `UNFIT`. It takes no memory, and is never
/// refused.
#[unsafe(no_mangle)]
pub extern "C" fn market_raw_leave(alloc: Global, place: &mut Place, arena: &mut u32) -> i32
    ensures done { result ≡ pos 0 → Goes place.old.held.seat place.new.held.seat (λ p q. Called p Leave (Left arena.new) q) }
    ensures unplaced { result ≡ pos 0 → IsAt place.new.held.seat None }
    ensures unfit { result ≡ negsuc 5 → place.new.held.seat ≡ place.old.held.seat }
    ensures told { Tells result Leave place.old.held.seat place.new.held.seat }
    ensures unwritten { result ≢ pos 0 → arena.new ≡ arena.old }
{
    let Some((seat, room)) = place.take(alloc) else {
        return BAD_SEAT;
    };
    let Asked { seat, answer } = seat.try_leave();
    place.put(room, seat);
    match answer {
        Answer::Made(at) => {
            *arena = at.get();
            OK
        }
        Answer::Failed(_) => unreachable!(),
        Answer::Busy => BUSY,
        Answer::Unfit => UNFIT,
    }
}
