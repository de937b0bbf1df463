//! Which entries of a history are kept.

/// Which entries of a history are to be kept. The history is the same either way: what is not kept of it exists in proofs alone.
/// Where entries are cut out or forgotten, their places are free again for the first 18,446,744,073,708,503,039 calls
/// ([`MOST_FORGOTTEN`](crate::MOST_FORGOTTEN)), and for no later one, so that 64 bits count the calls.
#[derive(Clone, Copy, Debug, PartialEq, Eq)]
pub enum Keeping {
    /// Each entry, while there are places: it can be read.
    Everything,
    /// Each entry until it is cut out: whoever calls the chronicle takes the entries out in parts, and their places are free again.
    InParts,
    /// No entry: whoever calls the chronicle has it forget each entry at once, or never store it, and no place is taken.
    Nothing,
}
