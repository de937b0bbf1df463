//! The numbers of the answers, as `market.h` names them.
ghost use Rattle.std.specs.Prelude.{◌≡◌};
ghost use Rattle.market_c.specs.Codes.{code_of, open_code, why_code, IsRefusal, IsAnswer};

use market_seat::WhyNot;
use market_types::{Fault, OpenFault, Reply};

/// Done.
pub const OK: i32 = 0;

/// Another caller has the desk: call again.
pub const BUSY: i32 = 1;

/// The history has too few free places.
pub const HISTORY_FULL: i32 = 2;

/// No arena is in need of a worker.
pub const IDLE: i32 = 3;

/// The seat was recalled, and is no longer placed.
pub const RECALLED: i32 = 4;

/// All seats are given out.
pub const NO_SEAT_LEFT: i32 = 5;

/// Other seats of the market are not merged yet.
pub const SEATS_OUT: i32 = 6;

/// The seat is placed: it has to leave first.
pub const STILL_PLACED: i32 = 7;

/// A part of the journal was not read yet: read it first.
pub const UNREAD: i32 = 8;

/// Nothing could be cut: the market does not keep its entries in parts, or its history is too long.
pub const NO_PART: i32 = 9;

/// Out of memory.
pub const NO_MEMORY: i32 = -1;

/// The place holds no seat, or holds one where an empty one is wanted.
pub const BAD_SEAT: i32 = -2;

/// A number is out of the range that is named beside it.
pub const BAD_NUMBER: i32 = -3;

/// The seat is placed, where it is not to be, or is not placed, where it is to be: nothing was asked.
pub const UNFIT: i32 = -6;

/// The place holds no journal, or holds one where an empty one is wanted.
pub const BAD_JOURNAL: i32 = -7;

/// A reply of another kind: no market gives one.
const ODD_REPLY: i32 = -9;

/// The number of a refusal.
pub fn of_fault(fault: Fault) -> i32
    ensures exact { result ≡ code_of fault }
    ensures answer { IsAnswer result }
{
    match fault {
        Fault::BadSlots => 11,
        Fault::BadReserve => 12,
        Fault::TooManyArenas => 13,
        Fault::OutOfNumbers => 14,
        Fault::NoArena => 15,
        Fault::Busy(_) => 16,
        Fault::WantedRange => 17,
        Fault::MandatoryRange => 18,
        Fault::BadValue => 19,
        Fault::TooManyControls => 20,
        Fault::NoControl => 21,
        Fault::AlreadyPlaced(_) => 22,
        Fault::NotPlaced => 23,
        Fault::BadLevel => 24,
    }
}

/// The number of a reply that is a refusal.
pub fn of_refusal(reply: &Reply) -> i32
    ensures exact { IsRefusal result reply.now }
    ensures answer { IsAnswer result }
{
    match reply {
        Reply::Refused(fault) => of_fault(*fault),
        _ => ODD_REPLY,
    }
}

/// Why a market is not opened.
pub fn of_open_fault(fault: OpenFault) -> i32
    ensures exact { result ≡ open_code fault }
{
    match fault {
        OpenFault::BadBase => 31,
        OpenFault::BadHard => 32,
        OpenFault::BadSeats => 33,
        OpenFault::BadPlaces => 34,
        OpenFault::BadLevels => 35,
        OpenFault::Memory => NO_MEMORY,
    }
}

/// Why a seat is not taken back, or a market not closed.
pub fn of_why_not(why: WhyNot) -> i32
    ensures exact { result ≡ why_code why }
{
    match why {
        WhyNot::StillPlaced => STILL_PLACED,
        WhyNot::OthersOut => SEATS_OUT,
        WhyNot::Memory => NO_MEMORY,
    }
}
