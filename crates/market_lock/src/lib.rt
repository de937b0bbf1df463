//! The office: threads share one market, and each knows one legal history of it.
//!
//! [`Office::open`] gives an office and a [`Pass`] for each seat, which may go to threads of their own. A pass is the right to call
//! from its seat; by `join` it becomes a [`Placed`] worker, and a pass again by `stay`, where the worker is recalled, or by
//! `leave`. What is known of each is the history that its caller saw last, and the caller's own entries in it: a call that is
//! answered adds its entry at the end, and whatever other callers did between stands before it. Neither can be dropped:
//! [`Office::close`] takes all of them back, and leaves the one history that each of them saw a beginning of.
//!
//! An office keeps its history, and has places for so many calls; or it is taken out in parts while it works
//! ([`Office::open_in_parts`], [`Office::cut`]), so that its places are free again; or it keeps none of it, and has places for the
//! first 18,446,744,073,708,503,039 calls ([`Office::open_unrecorded`]): its history exists in proofs alone then. All that is proved
//! of one holds of the others.
//!
//! A call waits while another is served. An attempt ([`Office::try_call`] and the like) does not: it is `Busy` then, and changes nothing.
//!
//! Behind it lies one lock. The market with its history is one value, a [`Desk`], which serves one call at a time; contracts see it as
//! its chronicle. It lies in the one slot of a table (`atomic_table`) whose one word tells whether the desk is at home. An attempt takes
//! the desk, has it served, and gives it back; a call that waits makes attempts. `rule` says what holds between any two steps, `ticket` is one
//! call, `opening` and `closing` are the two ends.
#![tactic(auto)]

mod attempt;
mod closing;
mod desk;
mod office;
mod opening;
mod pass;
mod rule;
mod ticket;
mod view;

pub use attempt::Attempt;
pub use desk::Desk;
pub use office::{Closed, Office};
pub use pass::{Joined, Pass, Placed, Stayed};
