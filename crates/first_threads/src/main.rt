//! A first program whose threads share a market: one opens an arena and asks for two workers, then four join at the same time.
#![tactic(auto)]

use anyhow::{Result, bail};
use edit_history::Keeping;
use market_types::{ArenaId, Cmd, LastNumber, Level};
use office_crew::{Meeting, MeetingTerms, Script, meet};
use std::sync::Wait;
use std::thread::Threads;

/// Seven workers, three levels, room for a hundred calls; every call is kept.
const TERMS: MeetingTerms = MeetingTerms {
    base: 8,
    hard: 64,
    places: 100,
    levels: 3,
    last: LastNumber::USUAL,
    keeping: Keeping::Everything,
};

fn main(rt: HostRuntime) -> Result<()> {
    let alloc = rt.alloc();
    let openings = [
        Cmd::Open(8, 1, Level::from_index(1)),
        Cmd::Request(ArenaId::new(1), 2, 0),
    ];
    let join = [Cmd::Join];
    let openers = vec![in alloc; Script::new(alloc, &openings)?]?;
    let workers = vec![in alloc;
        Script::new(alloc, &join)?,
        Script::new(alloc, &join)?,
        Script::new(alloc, &join)?,
        Script::new(alloc, &join)?,
    ]?;
    // Each has the pass of a seat of its own. The opener works in this thread, and so does one of the four, beside the others.
    match meet(&rt, alloc, TERMS, openers, workers) {
        Ok(meeting) => show(&rt, &meeting),
        Err(unmet) => bail!("no office: {}", unmet.fault),
    }
}

/// Who was placed, seat by seat, on standard error, since that is another one each time; and what is always so.
fn show(rt: &HostRuntime, meeting: &Meeting<Script<'_>, Script<'_>>) -> Result<()> {
    for (seat, worker) in meeting.tasks.iter().enumerate() {
        eprint!(rt; "seat {}: {}", seat + 1, str::from_utf8(worker.told())?)?;
    }
    let closed = &meeting.closed;
    println!(rt;
        "{} calls, {} of 4 workers placed",
        closed.calls, closed.workers
    )?;
    Ok(())
}
