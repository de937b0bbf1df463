//! Tests of the crates below the market: what no clause says of an arena, of the shares, of the limits on parallelism, of the tree and
//! the lists of a level, of the arenas' store and of the seats.
mod claims;
mod controls;
mod lists;
mod seats;
mod shares;
mod stores;
mod trees;
