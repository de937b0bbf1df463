//! How long a turn takes.
ghost use Rattle.std.specs.Prelude.{◌≡◌, ◌≤◌, Some, None, OnOk, IfErr};
ghost use Rattle.std.specs.List.{All, Contains};
ghost use Rattle.market_bench.specs.declared.fault.BenchFault.TheVariants.{Refused};
ghost use Rattle.market_bench.specs.Turns.{after_round, after_rounds};

use crate::fault::BenchFault;
use crate::scenario::Scenario;
use crate::stage::Stage;
use std::rt::Clock;
use std::time::Instant;

/// How many rounds are timed.
pub const ROUNDS: usize = 5;

/// The least of the times.
fn least(times: &[u64; ROUNDS]) -> u64
    ensures one { Contains times.now result }
    ensures least { All (λ time. result ≤ time) times.now }
{
    let Some(least) = times.iter().copied().min() else {
        unreachable!()
    };
    least
}

/// The nanoseconds of one round.
fn time_round(rt: &impl Clock, scenario: Scenario, stage: &mut Stage) -> Result<u64, BenchFault>
    ensures refused { IfErr result (λ fault. fault ≡ Refused → after_round scenario stage.old.arenas stage.old.market ≡ None) }
    ensures round { OnOk result (after_round scenario stage.old.arenas stage.old.market ≡ Some stage.new.market) }
    ensures arenas { stage.new.arenas ≡ stage.old.arenas }
{
    let start = Instant::now(rt)?;
    let _sum = scenario.round(stage)?;
    let nanos = start.elapsed(rt)?.as_nanos();
    Ok(u64::try_from(nanos).unwrap_or(u64::MAX))
}

/// The nanoseconds of one turn, in the fastest of the rounds.
pub fn time_turn(rt: &impl Clock, scenario: Scenario, stage: &mut Stage) -> Result<u64, BenchFault>
    ensures refused { IfErr result (λ fault. fault ≡ Refused → after_rounds scenario stage.old.arenas stage.old.market 5 ≡ None) }
    ensures rounds { OnOk result (after_rounds scenario stage.old.arenas stage.old.market 5 ≡ Some stage.new.market) }
    ensures arenas { stage.new.arenas ≡ stage.old.arenas }
{
    let mut times = [0; ROUNDS];
    for time in times.iter_mut() {
        *time = time_round(rt, scenario, stage)?;
    }
    Ok(least(&times) / u64::from(scenario.turns()))
}
