//! One caller's way into an office, which keeps the office alive: what a program that can't lend an office by `&` holds in its place.
//!
//! [`Seat::open`] gives the first seat of a new office, with the passes of all others in it; [`Seat::split`] gives one of them a
//! seat of its own, for one more thread. A seat calls by attempts: where another caller has the desk, the answer is `Busy`, and
//! nothing is changed. [`Seat::merge`] takes a seat back, and [`Seat::close`] ends the office, once all are back, with what
//! `Office::close` leaves. What a seat can't ask as it is (a Join while it is placed, a Leave while it is not) is told at run time.
#![tactic(auto)]

mod answer;
mod hand;
mod seat;

pub use answer::{Answer, Asked, Cutting, Kept, Unclosed, Unmerged, WhyNot};
pub use hand::Hand;
pub use seat::Seat;
