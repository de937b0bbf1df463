//! Which arenas of a plan no worker would ever come to.
ghost use Rattle.std.specs.Prelude.{◌≡◌, ℕ, ◌≤◌, length, IfOk, IfSome, IfNone, OnOk};
ghost use Rattle.market_types.specs.State.{opening};
ghost use Rattle.market_types.specs.Allotment.{allotment_of};
ghost use Rattle.market_types.specs.History.{state_after};
ghost use Rattle.market_drive.specs.Servable.{calls_of_first, has_job, IsLeastUnservable, IsUnservable, lone_state};

use crate::commands::{founding, request};
use drive_plan::Plan;
use market_core::Market;
use market_types::{ArenaId, Cmd, OpenFault, SeatNo};
use plan_jobs::PlannedJob;
use std::alloc::{AllocError, Global};

/// Some job is the arena's.
fn has_job(jobs: &[PlannedJob], arena: ArenaId) -> bool
    ensures { result ≡ has_job jobs.now arena }
{
    jobs.iter().any(|job| job.arena == arena)
}

/// A new market with the plan's base, hard limit and levels, and one seat: no allotment depends on how many there are.
fn open_market(alloc: Global, plan: &Plan) -> Result<Market, AllocError>
    ensures { IfOk result (λ market. market ≡ opening plan.now.base plan.now.hard 1 plan.now.levels) }
{
    match Market::new(alloc, plan.base(), plan.hard(), 1, plan.levels()) {
        Ok(market) => Ok(market),
        Err(OpenFault::Memory) => Err(AllocError),
        Err(_) => unreachable!(),
    }
}

/// Gives the market commands in order, as calls of seat 0.
fn give(alloc: Global, market: &mut Market, commands: &[Cmd]) -> Result<(), AllocError>
    ensures { OnOk result (market.new ≡ state_after market.old (calls_of_first commands.now)) }
{
    for cmd in commands {
        market.has_a_seat();
        market.apply(alloc, SeatNo::new(0), *cmd)?;
    }
    Ok(())
}

/// How many workers an arena is allotted; none where no living arena has this number.
fn allotment(market: &Market, arena: ArenaId) -> u32
    ensures { result ≡ allotment_of market.now arena }
{
    match market.view(arena) {
        Some(view) => view.allot,
        None => 0,
    }
}

/// How many workers an arena of the plan is allotted where it alone asks for some.
fn lone_allotment(alloc: Global, plan: &Plan, arena: ArenaId) -> Result<u32, AllocError>
    requires low { 1 ≤ arena }
    requires high { arena ≤ length plan.now.arenas }
    ensures { IfOk result (λ workers. workers ≡ allotment_of (lone_state plan.now arena) arena) }
{
    let mut commands = founding(alloc, plan)?;
    let place = arena.get() as usize - 1;
    commands.push(request(arena, &plan.arenas()[place]))?;
    let mut market = open_market(alloc, plan)?;
    give(alloc, &mut market, &commands)?;
    Ok(allotment(&market, arena))
}

/// The least arena of the plan that has a job, and is allotted no worker though it alone asks for some: with the plan's
/// controls, and all of its arenas open. `None` where each arena that has a job is allotted one. Want of memory is the only
/// `Err`. For each arena that has a job it makes a market of the whole plan, of at most 64 arenas and 256 controls, and for
/// each arena it looks at the jobs up to the first of its own.
pub fn unservable(alloc: Global, plan: &Plan) -> Result<Option<ArenaId>, AllocError>
    ensures least { IfOk result (λ arena. IfSome arena (IsLeastUnservable plan.now)) }
    ensures none { IfOk result (λ arena. IfNone arena ((a : ℕ) → IsUnservable plan.now a → ⊥)) }
{
    let jobs = plan.jobs();
    for index in 0..plan.arenas().len() {
        let arena = ArenaId::new(index as u32 + 1);
        if has_job(jobs, arena) && lone_allotment(alloc, plan, arena)? == 0 {
            return Ok(Some(arena));
        }
    }
    Ok(None)
}
