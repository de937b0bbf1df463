//! Why a scribe has nothing to write.
use edit_history::Part;

/// Why a scribe was not handed the next part of the history.
#[derive(Drop)]
pub enum Missed {
    /// The office gave no part: it is not kept in parts, or the spare vector has too little room, or there were too many calls.
    NoPart,
    /// Somebody else had cut before: this part begins behind entries that the scribe was not handed. It is out of the office now,
    /// and stands nowhere else.
    Elsewhere(Part),
}
