//! Who works where, and where workers are too many or too few. A [`Roster`] says at which arena each seat is placed, and
//! how many seats each arena has. [`first_in_need`] and [`list`] walk through a level's arenas in order, with a carry that
//! goes from each to the next, and set what an arena has beside what it is allotted.
#![tactic(auto)]

mod crowd;
mod lists;
mod roster;
mod rows;
mod served;
mod sharing;
mod slots;
mod walk;

pub use lists::list;
pub use roster::Roster;
pub use rows::{Staffing, hire, recall};
pub use sharing::Sharing;
pub use walk::first_in_need;
