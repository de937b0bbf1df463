//! The explanation of a market.
ghost use Rattle.std.specs.Prelude.{◌≡◌, ◌++◌, ◌<◌, ◌≤◌, false, IfErr, IfSome, OnErr, OnOk};
ghost use Rattle.std.specs.Io.KnownBytes.{Appends};
ghost use Rattle.byte_devices.specs.Devices.{WritesFront};
ghost use Rattle.byte_devices.specs.Output.{IsOutFault};
ghost use Rattle.market_types.specs.State.{Arena};
ghost use Rattle.market_types.specs.Claims.{request_of};
ghost use Rattle.market_types.specs.Allotment.{at_level, bound_of, demand, levels_of, total_request};
ghost use Rattle.explainer.specs.Explanation.{arena_lines, explanation_text, level_lines, step_of};

use crate::line::{CarryStep, LevelView, push_arena_line, push_level_line, push_market_line};
use allotment::{bound_is_given_out, carry_share, no_carry_to_keep};
use byte_devices::{OutFault, Sink, put_all};
use market_core::Market;
use market_types::Level;
use std::alloc::{AllocError, Global};

/// Writes the explanation of a market: a line for the whole market, and for each level a line and a line for each of its
/// arenas, in the order in which they are served. At the first write that fails it is `Write`, and out of memory is
/// `Memory`; what was written is then a prefix of the explanation. The whole text is made before any of it is written: some
/// 137,000 bytes at most.
pub fn explain<W: Sink>(alloc: Global, market: &Market, sink: &mut W) -> Result<(), OutFault>
    requires working { W.failed sink.old ≡ false }
    ensures all { OnOk result (Appends (W.taken sink.old) (W.taken sink.new) (explanation_text market.now)) }
    ensures working { OnOk result (W.failed sink.new ≡ false) }
    ensures prefix { OnErr result (WritesFront (W.taken sink.old) (W.taken sink.new) (explanation_text market.now)) }
    ensures cause { IfErr result (λ fault. IsOutFault fault (W.failed sink.new)) }
{
    let mut text = Vec::new(alloc);
    push_explanation(&mut text, market)?;
    put_all(sink, &text)?;
    Ok(())
}

/// Puts the explanation behind what stands in `out`.
fn push_explanation(out: &mut Vec<u8>, market: &Market) -> Result<(), AllocError>
    ensures { OnOk result (out.new.items ≡ out.old.items ++ explanation_text market.now) }
{
    let limits = market.limits();
    let demand = total_demand(market);
    let workers = demand.min(u64::from(limits.effective));
    push_market_line(out, limits, demand, workers)?;
    push_levels(out, market, workers)
}

/// What all arenas ask for.
fn total_demand(market: &Market) -> u64
    ensures exact { result ≡ total_request market.now.arenas }
{
    bound_is_given_out();
    let mut total = 0;
    for index in 0..market.levels() {
        total += market.demand(Level::from_index(index as usize));
    }
    total
}

/// The lines of all levels and of their arenas, where so many workers may be allotted.
fn push_levels(out: &mut Vec<u8>, market: &Market, workers: u64) -> Result<(), AllocError>
    requires bound { workers ≡ bound_of market.now }
    ensures { OnOk result (out.new.items ≡ out.old.items ++ level_lines market.now 0 (levels_of market.now)) }
{
    no_carry_to_keep();
    let mut left = workers;
    for index in 0..market.levels() {
        let level = Level::from_index(index as usize);
        let assigned = market.assigned(level);
        left = left.saturating_sub(assigned);
        let demand = market.demand(level);
        let view = LevelView {
            level,
            demand,
            assigned,
            left,
        };
        push_level_line(out, market.levels(), view)?;
        push_arenas(out, market, level)?;
    }
    Ok(())
}

/// The lines of a level's arenas. No level before it leaves a carry.
fn push_arenas(out: &mut Vec<u8>, market: &Market, level: Level) -> Result<(), AllocError>
    requires low { 1 ≤ level }
    requires high { level ≤ market.now.levels }
    ensures { OnOk result (out.new.items ≡ out.old.items ++ arena_lines market.now 0 (at_level level market.now.arenas)) }
{
    let mut carry = 0;
    let mut index = 0;
    while let Some(view) = market.row(level, index) {
        let step = carry_step(market, level, carry, view.request);
        push_arena_line(out, &view, step)?;
        if let Some(step) = step {
            carry = step.rest;
        }
        index += 1;
    }
    Ok(())
}

/// The step of an arena of a level that asks for `request` workers, where the arenas before it left `carry`: none where it
/// asks for none, and where no worker may be active.
fn carry_step(market: &Market, level: Level, carry: u64, request: u32) -> Option<CarryStep>
    requires low { 1 ≤ level }
    requires high { level ≤ market.now.levels }
    requires small { request ≤ 65535 }
    requires asked { request ≤ demand market.now level }
    requires carried { 0 < demand market.now level → carry < demand market.now level }
    ensures exact { (a : Arena) → a.level ≡ level → request_of a.claim ≡ request → result ≡ step_of market.now carry a }
    ensures carried { IfSome result (λ step. step.rest < demand market.now level) }
{
    if market.limits().limit == 0 || request == 0 {
        return None;
    }
    let request = u64::from(request);
    let (assigned, demand) = (market.assigned(level), market.demand(level));
    let (_, rest) = carry_share(assigned, demand, carry, request);
    Some(CarryStep {
        carry,
        product: request * assigned + carry,
        rest,
    })
}
