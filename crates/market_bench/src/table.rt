//! The table.
ghost use Rattle.std.specs.Prelude.{◌≡◌, ◌≤◌, Some, None, IfOk, IfErr};
ghost use Rattle.market_bench.specs.declared.fault.BenchFault.TheVariants.{Refused};
ghost use Rattle.market_bench.specs.declared.table.Content.TheVariants.{Replies};
ghost use Rattle.market_bench.specs.Table.{sum_in};
ghost use Rattle.market_bench.specs.Turns.{round_of};

use crate::fault::BenchFault;
use crate::measure::{ROUNDS, time_turn};
use crate::scenario::Scenario;
use crate::stage::Stage;
use std::io;
use std::rt::Clock;

/// The numbers of arenas, a column for each.
const ARENAS: [u32; 5] = [1, 16, 64, 256, 1024];

/// The numbers of levels over which the arenas are spread, some rows for each.
const LEVELS: [u32; 2] = [3, 1];

/// What a cell has.
#[derive(Clone, Copy)]
pub enum Content {
    /// The nanoseconds of a turn.
    Times,
    /// The sum of a round's replies.
    Replies,
}

/// What is measured of a scenario in this market.
fn measured(
    rt: &impl Clock,
    content: Content,
    scenario: Scenario,
    stage: &mut Stage,
) -> Result<u64, BenchFault>
    ensures refused { content ≡ Replies → IfErr result (λ fault. fault ≡ Refused → round_of scenario stage.old.arenas stage.old.market ≡ None) }
    ensures replies { content ≡ Replies → IfOk result (λ sum. round_of scenario stage.old.arenas stage.old.market ≡ Some (sum, stage.new.market)) }
{
    match content {
        Content::Times => time_turn(rt, scenario, stage),
        Content::Replies => Ok(scenario.round(stage)?),
    }
}

/// What the cell of a scenario has.
fn cell<R: Clock + AllocGlobal>(
    rt: &R,
    content: Content,
    scenario: Scenario,
    levels: u32,
    arenas: u32,
) -> Result<u64, BenchFault>
    requires levels { (1 ≤ levels) × (levels ≤ 8) }
    requires arenas { (1 ≤ arenas) × (arenas ≤ 1024) }
    ensures refused { content ≡ Replies → IfErr result (λ fault. fault ≡ Refused → sum_in scenario levels arenas ≡ None) }
    ensures replies { content ≡ Replies → IfOk result (λ sum. sum_in scenario levels arenas ≡ Some sum) }
{
    let mut stage = scenario.stage(rt.alloc(), levels, arenas)?;
    let measured = measured(rt, content, scenario, &mut stage);
    drop(stage);
    measured
}

/// Prints the cell of a scenario.
fn print_cell<R: Clock + AllocGlobal + Print>(
    rt: &R,
    content: Content,
    scenario: Scenario,
    levels: u32,
    arenas: u32,
) -> Result<(), BenchFault>
    requires levels { (1 ≤ levels) × (levels ≤ 8) }
    requires arenas { (1 ≤ arenas) × (arenas ≤ 1024) }
{
    let cell = cell(rt, content, scenario, levels, arenas)?;
    print!(rt; "{cell:>10}")?;
    Ok(())
}

/// Prints what the table is, and the heads of its columns.
fn print_head(rt: &impl Print, content: Content) -> io::Result<()> {
    match content {
        Content::Times => println!(rt;
            "nanoseconds a turn, the least of {ROUNDS} rounds, by the number of arenas"
        )?,
        Content::Replies => println!(rt; "sum of a round's replies, by the number of arenas")?,
    }
    print!(rt; "levels  turn               turns a round")?;
    for arenas in ARENAS {
        print!(rt; "{arenas:>10}")?;
    }
    println!(rt; "")
}

/// Prints a scenario's row.
fn print_row<R: Clock + AllocGlobal + Print>(
    rt: &R,
    content: Content,
    scenario: Scenario,
    levels: u32,
) -> Result<(), BenchFault>
    requires levels { (1 ≤ levels) × (levels ≤ 8) }
{
    let name = scenario.name();
    let turns = scenario.turns();
    print!(rt; "{levels:>6}  {name:<18} {turns:>13}")?;
    for arenas in ARENAS {
        print_cell(rt, content, scenario, levels, arenas)?;
    }
    println!(rt; "")?;
    Ok(())
}

/// Prints the rows of a number of levels.
fn print_rows<R: Clock + AllocGlobal + Print>(
    rt: &R,
    content: Content,
    levels: u32,
) -> Result<(), BenchFault>
    requires levels { (1 ≤ levels) × (levels ≤ 8) }
{
    for scenario in Scenario::ALL {
        print_row(rt, content, scenario, levels)?;
    }
    Ok(())
}

/// Prints the whole table, cell by cell as they are measured.
pub fn print_table<R: Clock + AllocGlobal + Print>(
    rt: &R,
    content: Content,
) -> Result<(), BenchFault> {
    print_head(rt, content)?;
    for levels in LEVELS {
        print_rows(rt, content, levels)?;
    }
    Ok(())
}
