//! What follows from the definitions alone. This function does nothing: what it ensures holds wherever it is called.
ghost use Rattle.std.specs.Prelude.{◌≡◌, ℕ, List, [], ◌∷◌, ◌++◌};
ghost use Rattle.market_types.specs.declared.command.Call.{Call};
ghost use Rattle.market_types.specs.State.{State};
ghost use Rattle.market_types.specs.Step.{step};
ghost use Rattle.market_types.specs.History.{state_after};
ghost use Rattle.journal_chart.specs.Numbers.{chart_after, chart_of, moments_of};

/// A call more of a history is a moment more of its chart: the market after it. So who takes the moment after each entry of a legal
/// history has the chart of that history.
pub fn a_call_is_a_moment()
    ensures { (most : ℕ) (arenas : List ℕ) (start : State) (calls : List Call) (call : Call)
        → chart_after most arenas start (calls ++ call ∷ [])
        ≡ chart_of most arenas (moments_of start calls ++ (step (state_after start calls) call.seat call.cmd).1 ∷ [])
        (step (state_after start calls) call.seat call.cmd).1 }
{}
