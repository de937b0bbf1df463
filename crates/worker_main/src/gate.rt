//! Who says when a job may run.
ghost use Rattle.std.specs.Prelude.{◌≡◌, ℕ, true, false};
ghost use Rattle.worker_main.specs.Books.{HasRefused};

use std::thread;

/// Whether a worker may go on with a job, and who is told when it is done. Contracts of workers speak of a gate in words of its
/// own, `passed`, `refused` and `told`: that it let a job of this number through, that it refused one when it was asked after so many
/// earlier questions, and that it was told that one is done. A gate that has nothing to say of them leaves them out.
pub trait Gate {
    ghost passed: { Self → ℕ → Type 0 } = { λ _ _. Unit {0} };

    ghost refused: { Self → ℕ → ℕ → Type 0 } = { λ _ _ _. Unit {0} };

    ghost told: { Self → ℕ → Type 0 } = { λ _ _. Unit {0} };

    /// Whether the job of this number may run now, of which the worker that took it has asked so many times before. It is asked
    /// without any lock held.
    fn before(&self, number: u32, earlier: u64) -> bool
        ensures passed { result ≡ true → passed self.now number }
        ensures refused { result ≡ false → refused self.now number earlier };

    /// The job of this number is done.
    fn after(&self, number: u32)
        ensures told { told self.now number };
}

/// A gate through which each job goes at once. It takes no memory.
#[derive(Clone, Copy, Debug, PartialEq, Eq)]
pub struct OpenGate;

impl Gate for OpenGate {
    /// It may, whichever it is.
    fn before(&self, number: u32, earlier: u64) -> bool
        ensures { result ≡ true }
    {
        let _ = number;
        let _ = earlier;
        true
    }

    /// Nobody is told.
    fn after(&self, number: u32) {
        let _ = number;
    }
}

/// Asks the gate up to so many times whether the job may run. A worker that has to ask again lets other threads run first.
pub(crate) fn is_let_through<G: Gate>(gate: &G, number: u32, turns: u64) -> bool
    ensures passed { result ≡ true → G.passed gate.now number }
    ensures refused { result ≡ false → HasRefused (G.refused gate.now) number turns }
{
    for asked in 0..turns {
        if gate.before(number, asked) {
            return true;
        }
        thread::yield_now();
    }
    false
}
