//! A market behind a mutex, without anything that an office promises: what a command and a lock take by themselves.
use crate::fault::BenchFault;
use crate::repeater::{Repeater, Turn};
use market_core::Market;
use market_types::{ArenaId, Cmd, Level, SeatNo};
use std::alloc::Global;
use std::sync::{Mutex, Wait};

/// Gives a command under the lock, and tells how many calls were answered: one or none.
fn give<R: Wait>(rt: &R, alloc: Global, market: &Mutex<Market>, cmd: Cmd) -> u64 {
    let mut market = market.lock(rt);
    market.has_a_seat();
    u64::from(market.apply(alloc, SeatNo::new(0), cmd).is_ok())
}

/// Opens the arenas, each of which asks for three workers, and tells how many calls were answered.
fn open<R: Wait>(rt: &R, alloc: Global, market: &Mutex<Market>, arenas: u32) -> u64 {
    let mut count: u64 = 0;
    for index in 0..arenas {
        let level = Level::from_index((index % 3) as usize);
        let arena = ArenaId::new(index.saturating_add(1));
        for cmd in [Cmd::Open(8, 1, level), Cmd::Request(arena, 3, 0)] {
            count = count.saturating_add(give(rt, alloc, market, cmd));
        }
    }
    count
}

/// From the opening of a market with so many arenas to the last Request: how many calls were answered.
pub fn round<R: Wait>(rt: &R, alloc: Global, arenas: u32) -> Result<u64, BenchFault> {
    let repeater = Repeater {
        turn: Turn::Request,
        times: Turn::Request.times(),
        opens: true,
        arenas,
        cuts: None,
    };
    let market = Mutex::new(Market::new(alloc, 65, 65_535, 2, 3)?);
    let mut count = open(rt, alloc, &market, arenas);
    for index in 0..repeater.times {
        count = count.saturating_add(give(rt, alloc, &market, repeater.cmd(index)));
    }
    Ok(count)
}
