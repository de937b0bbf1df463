//! What a chart keeps of a market from one moment to the next.
use crate::row::Known;
use crate::shares::Shares;

/// What is kept since the last moment that was taken, so that the next looks at what may have changed.
// One record, so that a call that takes a moment hands over no more words than registers hold.
#[derive(Drop)]
pub(crate) struct Notes {
    /// What is known of each arena.
    pub(crate) known: Vec<Known>,
    /// What each level was given of what it asked for.
    pub(crate) shares: Shares,
    /// From which number on the arenas of all rows are numbered one after another, if they are.
    pub(crate) first: Option<u32>,
}
