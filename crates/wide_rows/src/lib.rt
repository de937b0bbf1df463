//! The rows of all eight levels in nodes that hold many, each searched by vectors, so that no branch hangs on where a row stands.
//!
//! A tree of boxes with one row each, as `prefix_tree`, finds its way by one compare a node, and half of its time goes into
//! branches that were guessed wrongly. Here a level's rows lie in leaves of 16, in columns, and a stamp is compared with all of a
//! leaf's at once:
//!
//! ```text
//!   Levels    level 1 .. 8, each with no rows, one leaf, or a shelf     boxes that none of them uses
//!   Shelf     a top over 10 blocks, a block over 16 leaves              what each child's rows ask for, how many they are
//!   Leaf      16 rows by rising stamp                                   stamps, requests, arenas, a bit for each mandate
//! ```
//!
//! [`Levels`] is seen as the list of each level's rows, newest first, with the contracts that `level_list::LevelList` has for one. Only a
//! new row takes memory: a row that moves finds its boxes among the spare ones. A [`Span`] is a level's rows for a walk in order, by
//! quads of four, that passes over blocks, leaves and quads by their sums ([`Walk`], [`Quad`]).
//!
//! A call says how much it searched: entering a node of k keys takes the work of as many steps as k has binary digits, and counts
//! so many visits; a walk counts each row that it looks at, and a run of sums in one node that it passes over as a node of so many
//! keys. So from one row to the next that has to be looked at it makes no more visits than a way down.
#![tactic(auto)]

mod columns;
mod index;
mod leaf;
mod level;
mod levels;
mod quads;
mod search;
mod shelf;
mod spans;
mod spare;
mod storeys;
mod visits;

pub use leaf::Leaf;
pub use levels::Levels;
pub use quads::Quad;
pub use spans::{Span, Walk};
