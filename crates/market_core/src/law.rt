//! What follows for every command of every market from the definitions alone. These functions do nothing: what they ensure
//! holds wherever they are called.
ghost use Rattle.std.specs.Prelude.{◌≡◌, ℕ, slice_set};
ghost use Rattle.market_types.specs.declared.command.Cmd.{Cmd};
ghost use Rattle.market_types.specs.State.{State};
ghost use Rattle.market_types.specs.Step.{step, place_of};
ghost use Rattle.market_types.specs.History.{place_after};
ghost use Rattle.market_core.specs.Allotted.{IsStaffed};
ghost use Rattle.market_core.specs.Moves.{Answers};

/// After a worker was placed its arena has no more workers than it is allotted, and after one was recalled no fewer.
pub fn placed_worker_is_allotted()
    ensures { (s : State) (seat : ℕ) (cmd : Cmd) → IsStaffed (step s seat cmd).0 (step s seat cmd).1 }
{}

/// A call moves its own seat alone, to where its reply says, so that the seats stay as many; and it leaves what the market
/// was opened with.
pub fn a_call_moves_its_own_seat()
    ensures seats { (s : State) (seat : ℕ) (cmd : Cmd)
        → (step s seat cmd).1.seats ≡ slice_set s.seats seat (place_after (place_of s seat) (step s seat cmd).0) }
    ensures answers { (s : State) (seat : ℕ) (cmd : Cmd) → Answers (place_of s seat) cmd (step s seat cmd).0 }
    ensures base { (s : State) (seat : ℕ) (cmd : Cmd) → (step s seat cmd).1.base ≡ s.base }
    ensures hard { (s : State) (seat : ℕ) (cmd : Cmd) → (step s seat cmd).1.hard ≡ s.hard }
    ensures levels { (s : State) (seat : ℕ) (cmd : Cmd) → (step s seat cmd).1.levels ≡ s.levels }
    ensures last { (s : State) (seat : ℕ) (cmd : Cmd) → (step s seat cmd).1.last ≡ s.last }
{}
