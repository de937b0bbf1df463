//! Tests of the market and the crates below it, of its history, its journal and its explanation, and of how lines are cut: what no
//! clause says, with values worked out by hand.
#![tactic(auto)]

#[cfg(test)]
mod arenas;
#[cfg(test)]
mod asserts;
#[cfg(test)]
mod checking;
#[cfg(test)]
mod chronicles;
#[cfg(test)]
mod commands;
#[cfg(test)]
mod desks;
#[cfg(test)]
mod journals;
#[cfg(test)]
mod largest;
#[cfg(test)]
mod lines;
#[cfg(test)]
mod pieces;
#[cfg(test)]
mod rows;
#[cfg(test)]
mod tables;
