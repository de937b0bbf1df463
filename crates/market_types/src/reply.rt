//! What the market answers.
ghost use Rattle.std.specs.Prelude.{◌≡◌, true, IfOk, OnErr};
ghost use Rattle.market_types.specs.Replies.{is_listed};

use crate::command::Call;
use crate::lists::Lists;
use crate::number::{ArenaId, ControlId};
use std::alloc::{AllocError, Global};
use thiserror::Error;

/// Why a command is refused. A refusal changes nothing.
#[derive(Clone, Copy, Debug, PartialEq, Eq)]
pub enum Fault {
    /// F01: the slots are not 1 to 65,535.
    BadSlots,
    /// F02: more slots are reserved than there are.
    BadReserve,
    /// F03: 1,024 arenas live.
    TooManyArenas,
    /// F04: the last number of its kind has been given.
    OutOfNumbers,
    /// F05: no living arena has this number.
    NoArena,
    /// F06: so many seats are placed at the arena.
    Busy(u32),
    /// F07: the total of wanted workers would leave the range of an `i32`.
    WantedRange,
    /// F08: the mandatory count would leave 0 to 65,535.
    MandatoryRange,
    /// F09: the control's value is not 1 to 65,536.
    BadValue,
    /// F10: 256 controls live.
    TooManyControls,
    /// F11: no living control has this number.
    NoControl,
    /// F12: the seat is placed at this arena.
    AlreadyPlaced(ArenaId),
    /// F13: the seat is not placed.
    NotPlaced,
    /// F14: the market has no such level.
    BadLevel,
}

/// Why a market is not opened.
#[derive(Clone, Copy, Debug, Error, PartialEq, Eq)]
pub enum OpenFault {
    /// O1: the base is not 1 to 65,536.
    #[error("O1 bad base")]
    BadBase,
    /// O2: the hard limit is not 1 to 65,535.
    #[error("O2 bad hard")]
    BadHard,
    /// O3: the seats are not 1 to 64.
    #[error("O3 bad seats")]
    BadSeats,
    /// O4: the places of the history are not 1 to 1,048,576.
    #[error("O4 bad places")]
    BadPlaces,
    /// O5: the levels are not 1 to 8.
    #[error("O5 bad levels")]
    BadLevels,
    /// Out of memory.
    #[error("memory")]
    Memory,
}

/// What is seen of an arena.
#[derive(Clone, Copy, Debug, PartialEq, Eq)]
pub struct ArenaView {
    pub arena: ArenaId,
    /// How many workers it asks for, 0 to 65,535.
    pub request: u32,
    /// How many workers it is allotted, at most its request.
    pub allot: u32,
    /// It asks for workers, and no level before its own does.
    pub top: bool,
    /// How many seats are placed at it.
    pub active: u32,
    /// How many of these are too many.
    pub recall: u32,
    /// How many more it is allotted.
    pub hire: u32,
}

/// How many workers may be active.
#[derive(Clone, Copy, Debug, PartialEq, Eq)]
pub struct LimitView {
    /// The least value of a living control, or the market's base, 1 to 65,536.
    pub value: u32,
    /// One less than the value, and at most the hard limit.
    pub limit: u32,
    /// The limit, or 1 where it is 0 and some arena has enqueued work.
    pub effective: u32,
}

/// What the market answers a command.
#[derive(Debug, Drop)]
pub enum Reply {
    /// The new arena's number.
    Opened(ArenaId),
    Closed,
    Moved,
    /// What the arena then asks for.
    Resized(u32),
    /// What the arena then asks for.
    Requested(u32),
    /// The new control's number.
    Controlled(ControlId),
    Uncontrolled,
    /// The seat is placed at this arena.
    Placed(ArenaId),
    /// No arena is in need of a worker.
    Idle,
    /// The seat stays at this arena.
    Stays(ArenaId),
    /// This arena has a worker too many: the seat is no longer placed at it.
    Recalled(ArenaId),
    /// The seat is no longer placed at this arena.
    Left(ArenaId),
    Shown(ArenaView),
    Listed(Lists),
    Limits(LimitView),
    /// Nothing was changed.
    Refused(Fault),
}

impl Reply {
    /// The same reply, in memory of its own. Out of memory is the `Err`, and only lists take any.
    pub fn copied(&self, alloc: Global) -> Result<Reply, AllocError>
        ensures exact { IfOk result (λ reply. reply ≡ self.now) }
        ensures lists_alone { OnErr result (is_listed self.now ≡ true) }
    {
        Ok(match self {
            Reply::Opened(arena) => Reply::Opened(*arena),
            Reply::Closed => Reply::Closed,
            Reply::Moved => Reply::Moved,
            Reply::Resized(request) => Reply::Resized(*request),
            Reply::Requested(request) => Reply::Requested(*request),
            Reply::Controlled(control) => Reply::Controlled(*control),
            Reply::Uncontrolled => Reply::Uncontrolled,
            Reply::Placed(arena) => Reply::Placed(*arena),
            Reply::Idle => Reply::Idle,
            Reply::Stays(arena) => Reply::Stays(*arena),
            Reply::Recalled(arena) => Reply::Recalled(*arena),
            Reply::Left(arena) => Reply::Left(*arena),
            Reply::Shown(view) => Reply::Shown(*view),
            Reply::Listed(lists) => Reply::Listed(lists.copied(alloc)?),
            Reply::Limits(view) => Reply::Limits(*view),
            Reply::Refused(fault) => Reply::Refused(*fault),
        })
    }
}

/// A call, and what it was answered.
#[derive(Debug, Drop)]
pub struct Entry {
    pub call: Call,
    pub reply: Reply,
}
