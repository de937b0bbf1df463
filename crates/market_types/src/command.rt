//! What a seat can ask of the market.
ghost use Rattle.std.specs.Prelude.{◌≡◌};
ghost use Rattle.market_types.specs.Commands.{moves_seat};

use crate::level::Level;
use crate::number::{ArenaId, ControlId, SeatNo};

/// A command. Numbers out of their ranges can be asked for: the market refuses them by name.
#[derive(Clone, Copy, Debug, PartialEq, Eq)]
pub enum Cmd {
    /// A new arena: slots, 1 to 65,535; reserved slots, at most as many; level.
    Open(u32, u32, Level),
    /// The arena goes, where no seat is placed at it.
    Close(ArenaId),
    /// The arena goes first in this level, also where that is its own.
    Priority(ArenaId, Level),
    /// The arena gets other slots and reserved slots, in the same ranges, at its place.
    Resize(ArenaId, u32, u32),
    /// The arena asks for so many workers more, and has so much enqueued work more; either may be below 0.
    Request(ArenaId, i32, i32),
    /// A new limit on parallelism, of this value, 1 to 65,536: while it lives, fewer workers than it are allotted, but for
    /// the one that enqueued work has where the limit is 0.
    Control(u32),
    /// The control goes.
    Uncontrol(ControlId),
    /// The seat asks for an arena in need of a worker.
    Join,
    /// The seat asks whether its arena still wants it.
    Stay,
    /// The seat leaves its arena.
    Leave,
    /// What the market allots to the arena.
    Show(ArenaId),
    /// The arenas with workers too many, and those with too few.
    Lists,
    /// How many workers may be active.
    Limit,
}

impl Cmd {
    /// The command may place its seat at an arena, or take it from one.
    pub fn moves_seat(self) -> bool
        ensures exact { result ≡ moves_seat self }
    {
        match self {
            Cmd::Join | Cmd::Stay | Cmd::Leave => true,
            _ => false,
        }
    }
}

/// A command of a seat.
#[derive(Clone, Copy, Debug, PartialEq, Eq)]
pub struct Call {
    pub seat: SeatNo,
    pub cmd: Cmd,
}
