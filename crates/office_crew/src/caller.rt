//! A caller of an office, and what it does in its thread.
ghost use Rattle.std.specs.Prelude.{◌≡◌, Bool};
ghost use Rattle.market_lock.specs.Seen.{IsSamePass, OfPass};
ghost use Rattle.office_crew.specs.Callers.{who_is};

use market_lock::{Office, Pass, Placed};
use std::alloc::Global;
use std::sync::Wait;

/// A pass `P`, or the worker `Q` that it became.
pub enum Caller<P, Q> {
    /// Its seat is not placed.
    Free(P),
    /// Its seat is placed.
    Working(Q),
}

/// What a thread does with its caller. Contracts of a meeting speak of tasks in words of their own, `worked` and `lets`: what a task
/// was and has become by its work, and between what its caller was and has become; and whether it lets others work. A task that
/// has nothing to say of them leaves them out.
pub trait Task {
    ghost worked: { Self → OfPass → Self → OfPass → Type 0 } = { λ _ _ _ _. Unit {0} };

    ghost lets: { Self → Bool → Type 0 } = { λ _ _. Unit {0} };

    /// Works until it is done. The caller that comes back is the one that was given, a pass or placed.
    fn work<R: Wait>(
        &mut self,
        rt: &R,
        alloc: Global,
        office: &Office,
        caller: Caller<Pass, Placed>,
    ) -> Caller<Pass, Placed>
        requires office { (who_is caller).table ≡ office.now.table }
        ensures same { IsSamePass (who_is caller) (who_is result) }
        ensures worked { worked self.old (who_is caller) self.new (who_is result) };

    /// Whether the tasks that come after it may work. An opener alone is asked, and only when it has ended its work.
    fn lets_others_work(&self) -> bool
        ensures lets { lets self.now result };
}
