//! Tests of what threads share, the office and the queues, and of plans and their workers: what no clause says, with values worked
//! out by hand.
#![tactic(auto)]

#[cfg(test)]
mod asserts;
#[cfg(test)]
mod driving;
#[cfg(test)]
mod office;
