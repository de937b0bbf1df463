//! What a seat is answered.

use crate::seat::Seat;
use edit_history::{CallFault, Part};
use market_types::{ArenaId, Entry};

/// What an attempt at a call gives. Its caller's seat is the same but at the first two.
#[derive(Drop)]
pub enum Answer<T> {
    /// The call was made.
    Made(T),
    /// The call was not answered: it is no entry, and the market is as it was.
    Failed(CallFault),
    /// Another caller has the desk: nothing was asked.
    Busy,
    /// The seat can't ask this as it is: nothing was asked.
    Unfit,
}

/// An answer, with the seat that asked.
pub struct Asked<T> {
    /// The same seat; a Join, a Stay or a Leave may have placed it, or taken it from its arena.
    pub seat: Seat,
    pub answer: Answer<T>,
}

/// What an attempt at a cut gives.
#[derive(Drop)]
pub enum Cutting {
    /// The desk was at home. The next part of the history is here, or none where nothing could be cut.
    Made(Option<Part>),
    /// Another caller has the desk: nothing was asked, and the spare vector comes back, emptied.
    Busy(Vec<Entry>),
    /// The seat is placed: nothing was asked, and the spare vector comes back as it was.
    Unfit(Vec<Entry>),
}

/// Whether an arena keeps its worker.
#[derive(Clone, Copy, Debug, PartialEq, Eq)]
pub enum Kept {
    /// This arena still wants it.
    Wanted(ArenaId),
    /// This arena had a worker too many: the seat is no longer placed.
    Recalled(ArenaId),
}

/// Why a seat is not taken back, or an office not closed.
#[derive(Clone, Copy, Debug, PartialEq, Eq)]
pub enum WhyNot {
    /// The seat is placed: it has to leave first.
    StillPlaced,
    /// Other seats of the office are not back yet.
    OthersOut,
    /// Out of memory.
    Memory,
}

/// A seat that was not taken back, as it was.
pub struct Unmerged {
    pub seat: Seat,
    pub why: WhyNot,
}

/// The seat of an office that was not closed, as it was.
pub struct Unclosed {
    pub seat: Seat,
    pub why: WhyNot,
}
