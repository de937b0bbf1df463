//! The market with the history that made it: every call of a seat, with what it was answered, in the order in which they came.
//!
//! A [`Chronicle`] is a market whose calls are recorded. It has a number of places: each entry takes one, and each placed seat
//! keeps one for its Leave, so that a worker can always leave. Contracts see it as its opening, its history and its places; the
//! market is what the opening becomes by the history's calls.
//!
//! A history need not be kept: a chronicle forgets its entries where it is told to ([`Chronicle::forget`]), or never stores one
//! ([`Chronicle::answer`]). They then take no memory and no place, and can't be read; what is proved of the history is proved of
//! them still.
//!
//! Or it is taken out in parts ([`Chronicle::cut`]): what was taken out can be read in its [`Part`], and the parts one after the
//! other are the history ([`parts_in_a_row_are_the_history`]).
#![tactic(auto)]

mod chronicle;
mod fault;
mod keeping;
mod law;
mod part;
mod past;
mod terms;

pub use chronicle::{Chronicle, MOST_FORGOTTEN};
pub use fault::CallFault;
pub use keeping::Keeping;
pub use law::{
    a_forgetful_chronicle_is_never_full, own_entries_place_a_seat, parts_in_a_row_are_the_history,
};
pub use part::Part;
pub use terms::{MOST_PLACES, Terms};
