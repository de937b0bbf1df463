//! A market that is ready to be measured.
ghost use Rattle.std.specs.Prelude.{◌≡◌, ◌+◌, ◌<◌, ◌≤◌, [], length, true, Some, None, OnOk, OnErr, IfOk, IfErr};
ghost use Rattle.market_types.specs.Step.{step};
ghost use Rattle.market_bench.specs.declared.fault.BenchFault.TheVariants as bench;
ghost use Rattle.market_bench.specs.declared.fault.TurnFault.TheVariants.{Refused};
ghost use Rattle.market_bench.specs.Replies.{number_in};
ghost use Rattle.market_bench.specs.Faults.{Stops};
ghost use Rattle.market_bench.specs.Stages.{filled, with_arena, with_arenas, with_others};
ghost use Rattle.market_bench.specs.Turns.{arena_in, is_in_turns};

use crate::fault::{BenchFault, TurnFault};
use market_core::Market;
use market_types::{ArenaId, Cmd, Level, Reply, SeatNo};
use std::alloc::Global;

/// How many seats there are.
const SEATS: u8 = 64;

/// How many seats there are but seat 0.
const OTHERS: u8 = SEATS - 1;

/// Slots of an arena, of which one is reserved.
const SLOTS: u32 = 8;

/// How many workers an arena asks for.
const WORKERS: i32 = 3;

/// A number out of a reply; `None` of a refusal.
fn number_in(reply: &Reply) -> Option<u64>
    ensures { result ≡ number_in reply.now }
{
    match reply {
        Reply::Opened(arena)
        | Reply::Placed(arena)
        | Reply::Stays(arena)
        | Reply::Recalled(arena)
        | Reply::Left(arena) => Some(u64::from(arena.get())),
        Reply::Controlled(control) => Some(u64::from(control.get())),
        Reply::Resized(request) | Reply::Requested(request) => Some(u64::from(*request)),
        Reply::Shown(view) => Some(u64::from(view.allot)),
        Reply::Listed(lists) => Some(lists.len() as u64),
        Reply::Limits(limits) => Some(u64::from(limits.effective)),
        Reply::Closed | Reply::Moved | Reply::Uncontrolled | Reply::Idle => Some(1),
        Reply::Refused(_) => None,
    }
}

/// Gives a seat's command to a market, and answers a number out of its reply. A refusal is a fault.
// As in a program that knows its commands.
#[inline(always)]
#[tactic(auto, using(crate::proofs::Living::same_living, market_core::proofs::Moved::same_seats))]
fn ask(alloc: Global, market: &mut Market, seat: u8, cmd: Cmd) -> Result<u64, TurnFault>
    requires { seat < length market.old.seats }
    ensures next { OnOk result (market.new ≡ (step market.old seat cmd).1) }
    ensures number { IfOk result (λ n. number_in (step market.old seat cmd).0 ≡ Some n) }
    ensures fault { IfErr result (λ fault. Stops fault cmd (step market.old seat cmd).0) }
    ensures same_seats { length market.new.seats ≡ length market.old.seats }
    ensures same_arenas { is_in_turns cmd ≡ true → length market.new.arenas ≡ length market.old.arenas }
{
    let reply = market.apply(alloc, SeatNo::new(seat), cmd)?;
    number_in(&reply).ok_or(TurnFault::Refused)
}

/// Opens an arena, the one of this number, and has it ask for its workers.
fn open_arena(
    alloc: Global,
    market: &mut Market,
    arena: ArenaId,
    level: Level,
) -> Result<(), TurnFault>
    requires seats { length market.old.seats ≡ 64 }
    ensures opened { OnOk result (with_arena arena level market.old ≡ Some market.new) }
    ensures refused { IfErr result (λ fault. fault ≡ Refused → with_arena arena level market.old ≡ None) }
    ensures one_more { OnOk result (length market.new.arenas ≡ length market.old.arenas + 1) }
    ensures same_seats { length market.new.seats ≡ length market.old.seats }
{
    ask(alloc, market, 0, Cmd::Open(SLOTS, 1, level))?;
    ask(alloc, market, 0, Cmd::Request(arena, WORKERS, 0))?;
    Ok(())
}

/// Opens so many arenas in a market that has none, level by level in turn.
fn open_arenas(
    alloc: Global,
    market: &mut Market,
    levels: u32,
    arenas: u32,
) -> Result<(), TurnFault>
    requires levels { (1 ≤ levels) × (levels ≤ 8) }
    requires arenas { arenas ≤ 1024 }
    requires none { market.old.arenas ≡ [] }
    requires seats { length market.old.seats ≡ 64 }
    ensures opened { OnOk result (with_arenas levels arenas market.old ≡ Some market.new) }
    ensures refused { IfErr result (λ fault. fault ≡ Refused → with_arenas levels arenas market.old ≡ None) }
    ensures all { OnOk result (length market.new.arenas ≡ arenas) }
    ensures same_seats { length market.new.seats ≡ length market.old.seats }
{
    for place in 0..arenas {
        let level = Level::from_index((place % levels) as usize);
        open_arena(alloc, market, ArenaId::new(place + 1), level)?;
    }
    Ok(())
}

/// A market of 64 seats and 1 to 1,024 arenas of 8 slots, numbered from 1 on, which asked for three workers each.
#[derive(Drop)]
pub struct Stage {
    pub alloc: Global,
    pub market: Market,
    pub arenas: u32,
    ghost seats: { length market.seats ≡ 64 },
    ghost living: { length market.arenas ≡ arenas },
    ghost some: { 1 ≤ arenas },
    ghost few: { arenas ≤ 1024 },
}

impl Stage {
    /// Opens a market with a base of 1 to 65,536 and 1 to 8 levels, and in it 1 to 1,024 arenas, level by level in turn.
    pub fn new(alloc: Global, base: u32, levels: u32, arenas: u32) -> Result<Stage, BenchFault>
        requires base { (1 ≤ base) × (base ≤ 65536) }
        requires levels { (1 ≤ levels) × (levels ≤ 8) }
        requires arenas { (1 ≤ arenas) × (arenas ≤ 1024) }
        ensures filled { IfOk result (λ stage. filled base levels arenas ≡ Some stage.market) }
        ensures refused { IfErr result (λ fault. fault ≡ bench.Refused → filled base levels arenas ≡ None) }
        ensures arenas { IfOk result (λ stage. stage.arenas ≡ arenas) }
    {
        let Ok(mut market) = Market::new(alloc, base, 65_535, SEATS, levels) else {
            return Err(BenchFault::Memory);
        };
        open_arenas(alloc, &mut market, levels, arenas)?;
        Ok(Stage {
            alloc,
            market,
            arenas,
        })
    }

    /// Has every seat but seat 0 join.
    pub fn place_others(&mut self) -> Result<(), TurnFault>
        ensures joined { OnOk result (with_others self.old.market ≡ Some self.new.market) }
        ensures refused { OnErr result (with_others self.old.market ≡ None) }
        ensures fault { IfErr result (λ fault. fault ≡ Refused) }
        ensures arenas { self.new.arenas ≡ self.old.arenas }
    {
        for other in 0..OTHERS {
            self.ask(other + 1, Cmd::Join)?;
        }
        Ok(())
    }

    /// Gives a seat's command, and answers a number out of its reply. A refusal is a fault.
    #[inline(always)]
    pub fn ask(&mut self, seat: u8, cmd: Cmd) -> Result<u64, TurnFault>
        requires seat { seat < 64 }
        requires turns { is_in_turns cmd ≡ true }
        ensures next { OnOk result (self.new.market ≡ (step self.old.market seat cmd).1) }
        ensures number { IfOk result (λ n. number_in (step self.old.market seat cmd).0 ≡ Some n) }
        ensures fault { IfErr result (λ fault. Stops fault cmd (step self.old.market seat cmd).0) }
        ensures arenas { self.new.arenas ≡ self.old.arenas }
    {
        ask(self.alloc, &mut self.market, seat, cmd)
    }

    /// An arena for a turn, spread evenly by a multiplicative hash.
    pub fn some_arena(&self, turn: u64) -> ArenaId
        ensures exact { result ≡ arena_in self.now.arenas turn }
        ensures low { 1 ≤ result }
        ensures high { result ≤ self.now.arenas }
    {
        let mixed = turn.wrapping_mul(0x9E37_79B9_7F4A_7C15);
        let mixed = (mixed ^ (mixed >> 29)).wrapping_mul(0xBF58_476D_1CE4_E5B9);
        let place = (mixed ^ (mixed >> 32)) % u64::from(self.arenas);
        ArenaId::new(place as u32 + 1)
    }
}
