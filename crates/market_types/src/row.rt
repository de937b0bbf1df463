//! What an index of arenas keeps of each.
use crate::number::ArenaId;

/// An arena as a list of one level's arenas sees it.
#[derive(Clone, Copy, Debug, PartialEq, Eq)]
pub struct Row {
    /// The stamp of the arena's last Open or Priority, 1 to 1,048,576: a greater one is newer.
    pub stamp: u32,
    pub arena: ArenaId,
    /// How many workers the arena asks for, 0 to 65,535.
    pub request: u32,
    /// The arena has enqueued work, and asks for some worker.
    pub mandated: bool,
}
