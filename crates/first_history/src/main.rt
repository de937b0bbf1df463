//! A first program that keeps a history: three calls of a market are recorded with their replies, and written as a journal.
#![tactic(auto)]

ghost use Rattle.std.specs.Prelude.{◌≡◌};

use anyhow::Result;
use byte_devices::WriteSink;
use edit_history::Chronicle;
use journal_replay::write_journal;
use market_types::{ArenaId, Cmd, Level, SeatNo};
use std::alloc::Global;

fn main(rt: HostRuntime) -> Result<()> {
    let alloc = rt.alloc();
    // Base 8 (seven workers), hard limit 64, four seats, room for a hundred calls, three levels.
    let mut chronicle = Chronicle::new(alloc, 8, 64, 4, 100, 3)?;
    give(alloc, &mut chronicle, Cmd::Open(8, 1, Level::from_index(1)))?;
    give(alloc, &mut chronicle, Cmd::Request(ArenaId::new(1), 3, 0))?;
    give(alloc, &mut chronicle, Cmd::Join)?;
    write_journal(alloc, &chronicle, &mut WriteSink::new(rt.stdout()))?;
    Ok(())
}

/// Seat 0 gives a command, which is recorded with its reply, be it a refusal.
fn give(alloc: Global, chronicle: &mut Chronicle, cmd: Cmd) -> Result<()>
    ensures all_kept { chronicle.new.from ≡ chronicle.old.from }
{
    chronicle.market().has_a_seat();
    chronicle.call(alloc, SeatNo::new(0), cmd)?;
    Ok(())
}
