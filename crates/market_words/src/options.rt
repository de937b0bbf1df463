//! The market that a script speaks to.

use market_types::{LastNumber, Opening};

/// What the market of a script is opened with where the command line names none of it.
pub const USUAL_MARKET: Opening = Opening {
    base: 8,
    hard: 64,
    seats: 4,
    levels: 3,
    last: LastNumber::USUAL,
};
