//! Callers at random, in threads of their own, that share one market through an office.
//!
//! [`work`] lets each caller call so many times, and tells how many find what they were answered in the office's history, in their
//! order. [`last`] lets them call until so much time has gone by, through an office that keeps no entries, or writes them to
//! standard output as a journal while they call.
#![tactic(auto)]

mod attendant;
mod dice;
mod fault;
mod forever;
mod guest;
mod note;
mod resident;
mod visitor;
mod visits;
mod watch;
mod writer;

pub use fault::DemoFault;
pub use forever::{Lasted, Record, last};
pub use visits::{Outcome, TERMS, work};
