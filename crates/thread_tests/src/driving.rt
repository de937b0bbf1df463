//! Tests of plans, of their workers, and of how they are driven: what no clause says, with values worked out by hand.
mod answers;
mod drives;
mod markets;
mod orders;
mod plans;
mod workers;
