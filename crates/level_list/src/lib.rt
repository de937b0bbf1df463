//! One level's arenas, newest first: what each asks for, and what all that are newer ask for together.
//!
//! A [`LevelList`] is a [`prefix_tree::Tree`] in which a new row is newer than all others, so that its contracts put it
//! at the front. A row that is taken out is a [`Taken`], which can be put back, here or in another level's list, without
//! memory. Only `push` takes memory.
//!
//! Each call but `new`, `len`, `demand` and `whole` says how many nodes of the tree it entered, as `Tree` counts them.
#![tactic(auto)]

mod list;

pub use list::LevelList;
pub use prefix_tree::{Parts, Stretch, Taken};
