//! The rule of the queue, and the kinds of its steps.
use crate::view::{Fed, View};
use crossbeam_queue::protocol::{Join, Lesson, Outcome, Protocol, Split};
use crossbeam_queue::{Pass, RuledArrayQueue};

/// What holds between any two steps.
pub struct InOrder;

impl<J> Protocol<Fed<J>, View<J>> for InOrder {
    ghost use Rattle.job_queue.specs.declared.view.View.TheVariants.{Opener};
    ghost use Rattle.job_queue.specs.Rule.{Kept};

    ghost holds = { Kept };

    ghost first = { Opener 0 0 0 };
}

/// One feeder more is to be made.
pub struct PromiseFeeder;

impl<J> Split<View<J>> for PromiseFeeder {
    ghost use Rattle.job_queue.specs.Views.{feeder_promised, spent};

    ghost left = { feeder_promised };

    ghost right = { λ _. spent };
}

/// One taker more is to be made.
pub struct PromiseTaker;

impl<J> Split<View<J>> for PromiseTaker {
    ghost use Rattle.job_queue.specs.Views.{taker_promised, spent};

    ghost left = { taker_promised };

    ghost right = { λ _. spent };
}

/// The next pass is made.
pub struct Deal;

impl<J> Split<View<J>> for Deal {
    ghost use Rattle.job_queue.specs.Views.{dealt, next_pass};

    ghost left = { dealt };

    ghost right = { next_pass };
}

/// One pop found nothing.
pub struct Miss;

impl<J> Split<View<J>> for Miss {
    ghost use Rattle.job_queue.specs.Views.{missed, spent};

    ghost left = { missed };

    ghost right = { λ _. spent };
}

/// One pass takes over what another stands for.
pub struct Gather;

impl<J> Join<View<J>> for Gather {
    ghost use Rattle.job_queue.specs.Views.{joined, spent};

    ghost both = { joined };

    ghost spent = { spent };
}

/// A push.
pub struct Store;

impl<J> Outcome<Fed<J>, View<J>> for Store {
    ghost use Rattle.job_queue.specs.Rule.{Stored};

    ghost then = { Stored };
}

impl<J> Lesson<Fed<J>, View<J>> for Store {
    ghost use Rattle.job_queue.specs.Rule.{Saw};

    ghost fact = { Saw };
}

/// A pop.
pub struct Take;

impl<J> Outcome<Fed<J>, View<J>> for Take {
    ghost use Rattle.job_queue.specs.Rule.{Taken};

    ghost then = { Taken };
}

impl<J> Lesson<Fed<J>, View<J>> for Take {
    ghost use Rattle.job_queue.specs.Rule.{Saw};

    ghost fact = { Saw };
}

/// The last pop, by the pass that stands for all.
pub struct Close;

impl<J> Outcome<Fed<J>, View<J>> for Close {
    ghost use Rattle.job_queue.specs.Rule.{Closes};

    ghost then = { Closes };
}

impl<J> Lesson<Fed<J>, View<J>> for Close {
    ghost use Rattle.job_queue.specs.Rule.{Rests};

    ghost fact = { Rests };
}

/// The kit's queue under the rule.
pub type Ring<J> = RuledArrayQueue<Fed<J>, View<J>, InOrder>;

/// A pass of the kit's queue.
pub type Hand<J> = Pass<Fed<J>, View<J>>;
