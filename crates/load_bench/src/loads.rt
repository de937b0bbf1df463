//! The loads.
use crate::author::Author;
use crate::churn::Churn;
use crate::dice::Dice;
use crate::digest::Digest;
use crate::journals::{Style, journal};
use crate::plans::{CREWS, Crew, plan};
use crate::scripts::script;
use crate::shape::{CHURNS, SHAPES, Shape, WORN, WORN_LAST};
use anyhow::Result;
use byte_devices::TestSource;
use market_core::Market;
use market_prog::{run_drive, run_journal, run_replay, run_script};
use market_types::{LastNumber, Opening};
use std::alloc::Global;
use std::sync::Wait;
use std::thread::Threads;

/// A job that a user waits for.
#[derive(Clone, Copy)]
pub enum Load {
    /// Journals are replayed that were written here.
    Replay,
    /// Journals are replayed that other tools wrote.
    Foreign,
    /// The journals of scripts are written.
    Journal,
    /// Scripts are answered.
    Run,
    /// A program gives commands to markets of its own.
    Embed,
    /// Plans are driven.
    Drive,
    /// A program gives commands to markets of its own, where arenas come and go and most workers find no work.
    Churn,
}

impl Load {
    /// Every load, as the program runs them.
    pub const ALL: [Load; 7] = [
        Load::Replay,
        Load::Foreign,
        Load::Journal,
        Load::Run,
        Load::Embed,
        Load::Drive,
        Load::Churn,
    ];

    /// Its word on the command line.
    pub fn name(self) -> &'static str {
        match self {
            Load::Replay => "replay",
            Load::Foreign => "foreign",
            Load::Journal => "journal",
            Load::Run => "run",
            Load::Embed => "embed",
            Load::Drive => "drive",
            Load::Churn => "churn",
        }
    }
}

/// How much is done, and with which numbers at random.
#[derive(Clone, Copy)]
pub struct Size {
    pub seed: u32,
    /// How many calls, entries or jobs each input has.
    pub count: u32,
    /// How many inputs of each kind there are.
    pub rounds: u32,
}

/// The calls of an input in a market of this shape. No two inputs have the same.
fn author(size: Size, round: u32, index: u64, shape: Shape) -> Author {
    let index = u64::from(round).wrapping_mul(1_000).wrapping_add(index);
    Author::new(Dice::new(size.seed, index), shape)
}

/// Makes a journal, forged at its end or not, and replays it.
fn replay_one(
    alloc: Global,
    author: &mut Author,
    shape: Shape,
    style: Style,
    entries: u32,
    forged: bool,
    digest: &mut Digest,
) -> Result<()> {
    let journal = journal(alloc, author, shape, style, entries, forged)?;
    run_replay(alloc, &mut TestSource::new(&journal), digest)?;
    Ok(())
}

/// Makes journals that are spelled so, and replays them. Every second one is forged at its end.
fn replay(
    alloc: Global,
    size: Size,
    round: u32,
    styles: &[Style],
    digest: &mut Digest,
) -> Result<()> {
    let mut index: u64 = 0;
    for shape in SHAPES {
        for style in styles {
            let mut author = author(size, round, index, shape);
            let forged = index % 2 == 1;
            replay_one(
                alloc,
                &mut author,
                shape,
                *style,
                size.count,
                forged,
                digest,
            )?;
            index = index.wrapping_add(1);
        }
    }
    Ok(())
}

/// Answers a script, or writes its journal.
fn work_script(
    alloc: Global,
    script: &[u8],
    shape: Shape,
    journals: bool,
    digest: &mut Digest,
) -> Result<()> {
    let source = &mut TestSource::new(script);
    let unread = if journals {
        run_journal(alloc, shape.opening(), source, digest)?
    } else {
        run_script(alloc, shape.opening(), source, digest)?
    };
    digest.mix(unread);
    Ok(())
}

/// Makes scripts, and answers them or writes their journals.
fn work_scripts(
    alloc: Global,
    size: Size,
    round: u32,
    journals: bool,
    digest: &mut Digest,
) -> Result<()> {
    let mut index: u64 = 0;
    for shape in SHAPES {
        let mut author = author(size, round, index, shape);
        let script = script(alloc, &mut author, shape.levels, size.count)?;
        work_script(alloc, &script, shape, journals, digest)?;
        index = index.wrapping_add(1);
    }
    Ok(())
}

/// Gives commands to the market.
#[inline(always)]
fn embed_calls(
    alloc: Global,
    author: &mut Author,
    market: &mut Market,
    calls: u32,
    digest: &mut Digest,
) -> Result<()> {
    for _ in 0..calls {
        let call = author.next_call();
        if call.seat.get() < market.seats() {
            digest.mix_reply(&market.apply(alloc, call.seat, call.cmd)?);
        }
    }
    Ok(())
}

/// Gives commands to a market of this shape.
fn embed_one(
    alloc: Global,
    author: &mut Author,
    shape: Shape,
    calls: u32,
    digest: &mut Digest,
) -> Result<()> {
    let mut market = Market::with_opening(alloc, shape.opening())?;
    embed_calls(alloc, author, &mut market, calls, digest)
}

/// Gives commands to markets of all shapes.
fn embed(alloc: Global, size: Size, round: u32, digest: &mut Digest) -> Result<()> {
    let mut index: u64 = 0;
    for shape in SHAPES {
        let mut author = author(size, round, index, shape);
        embed_one(alloc, &mut author, shape, size.count, digest)?;
        index = index.wrapping_add(1);
    }
    Ok(())
}

/// Gives the calls of a market where arenas come and go to this one.
#[inline(always)]
fn churn_calls(
    alloc: Global,
    churn: &mut Churn,
    market: &mut Market,
    calls: u32,
    digest: &mut Digest,
) -> Result<()> {
    for _ in 0..calls {
        let call = churn.next_call();
        if call.seat.get() < market.seats() {
            let reply = market.apply(alloc, call.seat, call.cmd)?;
            churn.note(call.seat, &reply);
            digest.mix_reply(&reply);
        }
    }
    Ok(())
}

/// Gives the calls of a market where arenas come and go to one of this shape, whose numbers end with the last.
fn churn_one(
    alloc: Global,
    dice: Dice,
    shape: Shape,
    last: LastNumber,
    calls: u32,
    digest: &mut Digest,
) -> Result<()> {
    let opening = Opening {
        last,
        ..shape.opening()
    };
    let mut market = Market::with_opening(alloc, opening)?;
    let mut churn = Churn::new(dice, shape);
    churn_calls(alloc, &mut churn, &mut market, calls, digest)
}

/// Gives the calls of markets where arenas come and go, at last to one whose numbers run out.
fn churn(alloc: Global, size: Size, round: u32, digest: &mut Digest) -> Result<()> {
    let mut index = u64::from(round).wrapping_mul(1_000);
    for shape in CHURNS {
        let dice = Dice::new(size.seed, index);
        churn_one(alloc, dice, shape, LastNumber::USUAL, size.count, digest)?;
        index = index.wrapping_add(1);
    }
    let dice = Dice::new(size.seed, index);
    let last = LastNumber::new(WORN_LAST).unwrap_or(LastNumber::USUAL);
    churn_one(alloc, dice, WORN, last, size.count / 64, digest)
}

/// Makes plans, and drives them.
fn drive<T: Threads + Wait + Sync>(
    rt: &T,
    alloc: Global,
    size: Size,
    round: u32,
    digest: &mut Digest,
) -> Result<()> {
    let mut index = u64::from(round).wrapping_mul(1_000);
    for crew in CREWS {
        let mut dice = Dice::new(size.seed, index);
        let plan = plan(alloc, &mut dice, crew, size.count)?;
        run_drive(rt, alloc, crew.workers, &mut TestSource::new(&plan), digest)?;
        index = index.wrapping_add(1);
    }
    Ok(())
}

/// One round of a load.
fn work_once<T: Threads + Wait + Sync>(
    rt: &T,
    alloc: Global,
    load: Load,
    size: Size,
    round: u32,
    digest: &mut Digest,
) -> Result<()> {
    match load {
        Load::Replay => replay(alloc, size, round, &[Style::Ours], digest),
        Load::Foreign => replay(alloc, size, round, &Style::FOREIGN, digest),
        Load::Journal => work_scripts(alloc, size, round, true, digest),
        Load::Run => work_scripts(alloc, size, round, false, digest),
        Load::Embed => embed(alloc, size, round, digest),
        Load::Drive => drive(rt, alloc, size, round, digest),
        Load::Churn => churn(alloc, size, round, digest),
    }
}

/// All rounds of a load. The result is a number for all that came out.
pub fn work<T: Threads + Wait + Sync>(
    rt: &T,
    alloc: Global,
    load: Load,
    size: Size,
) -> Result<u64> {
    let mut digest = Digest::new();
    for round in 0..size.rounds {
        work_once(rt, alloc, load, size, round, &mut digest)?;
    }
    Ok(digest.value())
}
