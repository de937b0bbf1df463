//! The commands that make a plan's market.
ghost use Rattle.std.specs.Prelude.{◌≡◌, ◌≤◌, IfOk};
ghost use Rattle.market_drive.specs.Making.{asks, commands_of, founding, opens};

use drive_plan::{Plan, PlannedArena};
use market_types::{ArenaId, Cmd};
use std::alloc::{AllocError, Global};

/// Opens an arena.
fn open(arena: &PlannedArena) -> Cmd
    ensures { result ≡ opens arena.now }
{
    Cmd::Open(arena.slots, arena.reserved, arena.level)
}

/// Asks for what the arena of this number wants.
pub(crate) fn request(number: ArenaId, arena: &PlannedArena) -> Cmd
    requires wanted { arena.now.wanted ≤ 65535 }
    requires mandatory { arena.now.mandatory ≤ 65535 }
    ensures { result ≡ asks number arena.now }
{
    Cmd::Request(number, arena.wanted as i32, arena.mandatory as i32)
}

/// The commands that make a plan's controls, and then its arenas, which ask for nothing yet.
pub(crate) fn founding(alloc: Global, plan: &Plan) -> Result<Vec<Cmd>, AllocError>
    ensures { IfOk result (λ commands. commands.items ≡ founding plan.now) }
{
    let controls = plan.controls().iter().map(|value| Cmd::Control(*value));
    controls
        .chain(plan.arenas().iter().map(open))
        .collect(alloc)
}

/// The commands that make a plan's market, in order: its controls, its arenas, so that the first is arena 1 of a new market
/// too, and what each arena asks for. It takes the memory of a command for each control, and of two for each arena; `Err` says
/// that memory ran out.
pub fn plan_commands(alloc: Global, plan: &Plan) -> Result<Vec<Cmd>, AllocError>
    ensures exact { IfOk result (λ commands. commands.items ≡ commands_of plan.now) }
{
    let mut commands = founding(alloc, plan)?;
    for (index, arena) in plan.arenas().iter().enumerate() {
        commands.push(request(ArenaId::new(index as u32 + 1), arena))?;
    }
    Ok(commands)
}
