//! The passes of a queue.
ghost use Rattle.std.specs.Prelude.{◌≡◌, ◌-◌, length};

use crate::rule::Hand;
use std::marker::Model;

/// How many jobs a feeder may store in all.
const MOST_STORED: u64 = 1_048_576;

/// The right to push, of one queue. It must be spent: a queue is settled with all of its passes.
pub struct Feeder<J> {
    pub(crate) hand: Hand<J>,
    pub(crate) number: u64,
    pub(crate) stored: u64,
}

impl<J> Model for Feeder<J> {
    ghost use Rattle.std.specs.Prelude.{◌≡◌, ◌<◌, ◌≤◌, length, []};
    ghost use Rattle.job_queue.specs.Views.{known_of, one};
    ghost use Rattle.job_queue.specs.Seen.{OfFeeder, feeder_of};

    ghost Value = { OfFeeder J };

    ghost view = { λ p. feeder_of p.hand.table_id (known_of (p.hand.me.0.client)) };

    ghost invariant = { λ p. let k = known_of (p.hand.me.0.client) in (p.hand.me.0.client ≡ one k) × (p.hand.me.1 ≡ []) × (k.taken ≡ []) × (k.empties ≡ 0) × (k.number < k.feeders) × (k.number ≡ p.number) × (length k.stored ≡ p.stored) × (p.stored ≤ 1048576) };
}

impl<J> Feeder<J> {
    /// How many jobs it may still store: 1,048,576 for a new one, and one less with each push that stored its job. It takes no
    /// memory and doesn't wait.
    pub fn room(&self) -> u64
        ensures { result ≡ 1048576 - length self.now.stored }
    {
        MOST_STORED - self.stored
    }
}

/// The right to pop, of one queue. It must be spent: a queue is settled with all of its passes.
pub struct Taker<J> {
    pub(crate) hand: Hand<J>,
    pub(crate) number: u64,
}

impl<J> Model for Taker<J> {
    ghost use Rattle.std.specs.Prelude.{◌≡◌, ◌≤◌, []};
    ghost use Rattle.job_queue.specs.Views.{known_of, one};
    ghost use Rattle.job_queue.specs.Seen.{OfTaker, taker_of};

    ghost Value = { OfTaker J };

    ghost view = { λ p. taker_of p.hand.table_id (known_of (p.hand.me.0.client)) };

    ghost invariant = { λ p. let k = known_of (p.hand.me.0.client) in (p.hand.me.0.client ≡ one k) × (p.hand.me.1 ≡ []) × (k.stored ≡ []) × (k.feeders ≤ k.number) × (k.number ≡ p.number) };
}
