//! What is cut out of a history.
use market_types::Entry;

/// Entries of a history that stand one behind the other, and how many entries the history has before them.
#[derive(Drop)]
pub struct Part {
    /// How many entries stand before the part: it begins with the entry of this number, the first of the history being 0.
    pub from: u64,
    /// The entries, in the order of the history.
    pub entries: Vec<Entry>,
}
