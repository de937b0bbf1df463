//! A first program with the market inside: it opens a market and an arena, asks for three workers, and places one.
#![tactic(auto)]

use anyhow::Result;
use market_core::Market;
use market_texts::reply_text;
use market_types::{ArenaId, Cmd, Level, SeatNo};

fn main(rt: HostRuntime) -> Result<()> {
    // Base 8 (seven workers), hard limit 64, four seats, three levels.
    let mut market = Market::new(rt.alloc(), 8, 64, 4, 3)?;
    let arena = ArenaId::new(1);
    let open = Cmd::Open(8, 1, Level::from_index(1));
    for cmd in [open, Cmd::Request(arena, 3, 0), Cmd::Join] {
        market.has_a_seat();
        let reply = market.apply(rt.alloc(), SeatNo::new(0), cmd)?;
        println!(rt; "{}", reply_text(rt.alloc(), &reply)?)?;
    }
    if let Some(view) = market.view(arena) {
        println!(rt; "{} allotted, {} more to hire", view.allot, view.hire)?;
    }
    Ok(())
}
