//! What the seats of the lock's table know. No value of these types is made: they exist in proofs alone.
use edit_history::Terms;
use market_types::{Entry, SeatNo};
use std::collections::LinkedList;

/// A part that was cut out of the history: by which seat, how many entries stand before it, and its entries.
pub(crate) struct Cut {
    pub seat: SeatNo,
    pub from: u64,
    pub entries: LinkedList<Entry>,
}

/// What a caller knows: the history that it saw last, how many of its first entries were not kept then, the parts that had been
/// cut out of it, by whichever caller, and its own entries in it.
pub(crate) struct Known {
    pub terms: Terms,
    pub seat: SeatNo,
    pub seen: LinkedList<Entry>,
    pub from: u64,
    pub cuts: LinkedList<Cut>,
    pub mine: LinkedList<Entry>,
}

/// The view of a seat of the table.
pub(crate) enum View {
    /// It deals the passes, so many up to now.
    Opener(Terms, usize),
    /// It waits outside.
    Outside(Known),
    /// It has the desk.
    Holder(Known),
    /// It takes the passes back, and keeps what they knew.
    Closer(Terms, LinkedList<Known>),
    /// It was taken back.
    Spent,
}
