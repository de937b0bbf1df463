//! Rows by descending stamp in a balanced tree, which adds up the requests of all rows that are newer than one in a
//! few steps, where a list walks them all.
//!
//! A [`Tree`] holds at most 1,024 rows, no two of one stamp. Its contracts see it as the list of its rows, newest first;
//! a row that was taken out is a [`Taken`], which keeps its memory, so that putting it back takes none.
//!
//! Each node holds its row and, of all rows at and below it, the sum of their requests, their number, and how many of
//! them are mandated; and once more the sum of its left side's requests. Its left side has the newer rows, its right side
//! the older ones:
//!
//! ```text
//!                      stamp 5 asks 3
//!                sum 14, 5 rows, 1 mandated
//!               /                          \
//!        stamp 8 asks 4               stamp 2 asks 1, mandated
//!   sum 4, 1 row, 0 mandated        sum 7, 3 rows, 1 mandated
//!                                   /                      \
//!                            stamp 4 asks 6            stamp 1 asks 0
//! ```
//!
//! So the requests above stamp 4 are those of the root and of its left side, 3 + 4, and what the way down from there
//! leaves to its left, 0: two sums, read on a path of three nodes. The heights of a node's two sides differ by one at
//! most, so no path is longer than twice the binary digits of the number of rows.
//!
//! Each call but `new`, `len`, `total` and `whole` says how many nodes of its search path it entered, the new or replaced node
//! included; nodes that only a rotation touches are not counted. Proved of this number are its bounds: no more than twice
//! the digits, and one at least where there are rows. That it is exact is seen by reading: a search path goes from a side
//! to its node by `Side::enter`, which counts it, or where it changes the side by `Side::take_apart`, `set` or `update`,
//! which count each node that they open. What a side's topmost node says of all its rows (`Side::count`, `sum`, `mandates`,
//! `height`) is read from above without entering it.
#![tactic(auto)]

mod balance;
mod change;
mod node;
mod search;
mod side;
mod stretch;
mod taken;
mod tree;

pub use stretch::{Parts, Stretch};
pub use taken::Taken;
pub use tree::Tree;
