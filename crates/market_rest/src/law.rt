//! What a market at rest is, and what hangs on one arena alone. These functions do nothing: what they ensure holds wherever they are
//! called.
ghost use Rattle.std.specs.Prelude.{◌≡◌, ◌<◌, ◌++◌, ◌∷◌, [], ℕ, List, None, All, true};
ghost use Rattle.market_types.specs.declared.command.Call.{Call};
ghost use Rattle.market_types.specs.State.{State, opening_to};
ghost use Rattle.market_types.specs.Allotment.{active, allotment_of, limit_of, mandatory_pick, need, total_request};
ghost use Rattle.market_types.specs.declared.reply.Entry.{Entry};
ghost use Rattle.market_types.specs.History.{IsLegal, calls_of, state_after};
ghost use Rattle.market_types.specs.Commands.{Fits};
ghost use Rattle.market_rest.specs.Alike.{AreAlike, IsPlain, concerning};
ghost use Rattle.market_rest.specs.Vain.{joined_last};

use allotment::bound_is_given_out;

/// After any calls at a market that was just opened: where nobody is placed and no arena is in need, none asks for workers, if any may
/// be active; where none may be, none that asks for some has enqueued work. So while all workers are out a Join is answered 'idle' only
/// where there is nothing for them to do.
pub fn a_market_at_rest_asks_for_nothing()
    ensures some { (base hard seats levels last : ℕ) (calls : List Call) → All (λ (c : Call). Fits c.cmd) calls
        → let s = state_after (opening_to base hard seats levels last) calls in
        ((n : ℕ) → active s n ≡ 0) → need s ≡ None → 0 < limit_of s → total_request s.arenas ≡ 0 }
    ensures none { (s : State) → ((n : ℕ) → active s n ≡ 0) → need s ≡ None → limit_of s ≡ 0 → mandatory_pick s ≡ None }
{
    bound_is_given_out();
}

/// What an arena may use and asks for, and the limit, hang on the Opens, the controls and the Requests at that arena alone, as long as
/// nothing is closed, moved, resized or taken away: without all other calls they are the same.
pub fn an_arena_asks_for_what_was_asked_at_it()
    ensures { (a : ℕ) (s t : State) (calls : List Call) → All (λ (c : Call). IsPlain c.cmd) calls → AreAlike a s t → AreAlike a (state_after s calls) (state_after t (concerning a calls)) }
{}

/// After calls by which nothing is closed, moved, resized or taken away: where nobody is placed and no arena is in need, an arena would
/// be allotted no worker either if none were asked for at any other, however many seats there were.
pub fn a_market_at_rest_serves_no_arena_alone()
    ensures { (a base hard seats others levels last : ℕ) (calls : List Call) → All (λ (c : Call). Fits c.cmd) calls → All (λ (c : Call). IsPlain c.cmd) calls
        → let s = state_after (opening_to base hard seats levels last) calls in
        ((n : ℕ) → active s n ≡ 0) → need s ≡ None
        → allotment_of (state_after (opening_to base hard others levels last) (concerning a calls)) a ≡ 0 }
{
    a_market_at_rest_asks_for_nothing();
    an_arena_asks_for_what_was_asked_at_it();
}

/// After a history from an opening: where each seat called nothing, or last a Join that was answered 'idle', nobody is placed; and where
/// who called last of all did, none is in need. All that others called was called before, and no seat has to know when.
pub fn a_market_that_all_joined_in_vain_is_at_rest()
    ensures free { (base hard seats levels last : ℕ) (history : List Entry) → IsLegal (opening_to base hard seats levels last) history
        → ((seat : ℕ) → joined_last seat history ≡ true)
        → (n : ℕ) → active (state_after (opening_to base hard seats levels last) (calls_of history)) n ≡ 0 }
    ensures none { (start : State) (history : List Entry) (e : Entry) → IsLegal start (history ++ e ∷ []) → joined_last e.call.seat (history ++ e ∷ []) ≡ true
        → need (state_after start (calls_of (history ++ e ∷ []))) ≡ None }
{}
