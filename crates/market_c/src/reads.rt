//! The commands that only read.
ghost use Rattle.std.specs.Prelude.{◌≡◌, ◌≢◌, ◌==◌, pos, negsuc, List, length, map, take, drop};
ghost use Rattle.market_types.specs.declared.command.Cmd.TheVariants.{Show, Limit, Lists};
ghost use Rattle.market_types.specs.declared.lists.Correction.TheVariants.{Recall, Hire};
ghost use Rattle.market_types.specs.declared.lists.Imbalance.{Imbalance};
ghost use Rattle.market_types.specs.Corrections.{counts_to};
ghost use Rattle.market_types.specs.declared.reply.Fault.{Fault};
ghost use Rattle.market_types.specs.declared.reply.Reply.TheVariants.{Shown, Limits, Listed, Refused};
ghost use Rattle.market_lock.specs.Moves.{Called};
ghost use Rattle.market_c.specs.Codes.{code_of, IsRefused};
ghost use Rattle.market_c.specs.Asked.{Goes, Tells};
ghost use Rattle.market_c.specs.Views.{view_of, limits_of, counts_of};

use crate::code::{OK, of_refusal};
use crate::commands::ask;
use crate::place::Place;
use market_types::{ArenaId, Cmd, Correction, Imbalance, Reply};
use std::alloc::Global;

/// What is seen of an arena, as C has it.
#[repr(C)]
#[derive(Drop)]
pub struct MarketView {
    pub arena: u32,
    /// How many workers it asks for.
    pub request: u32,
    /// How many workers it is allotted, at most its request.
    pub allot: u32,
    /// How many seats are placed at it.
    pub active: u32,
    /// How many of these are too many.
    pub recall: u32,
    /// How many more it is allotted.
    pub hire: u32,
    /// 1 where it asks for workers, and no level before its own does, else 0.
    pub top: u32,
}

/// How many workers may be active, as C has it.
#[repr(C)]
#[derive(Drop)]
pub struct MarketLimit {
    /// The least value of a living control, or the market's base.
    pub value: u32,
    /// One less than the value, and at most the hard limit.
    pub limit: u32,
    /// The limit, or 1 where it is 0 and some arena has enqueued work.
    pub effective: u32,
}

/// How far an arena is from what it is allotted, as C has it: one of its counts is 0, and the other is not.
#[repr(C)]
#[derive(Clone, Copy, Drop)]
pub struct MarketCounts {
    pub arena: u32,
    /// How many of its workers are too many.
    pub recall: u32,
    /// How many more it is allotted.
    pub hire: u32,
}

impl MarketCounts {
    /// The counts of an arena.
    fn of(arena: &Imbalance) -> MarketCounts
        ensures { result ≡ counts_of arena.now }
    {
        match arena.correction {
            Correction::Recall => MarketCounts {
                arena: arena.arena.get(),
                recall: arena.count,
                hire: 0,
            },
            Correction::Hire => MarketCounts {
                arena: arena.arena.get(),
                recall: 0,
                hire: arena.count,
            },
        }
    }
}

/// Writes the counts of the first arenas, as many as there is room for.
fn write_counts(from: &[Imbalance], to: &mut [MarketCounts])
    ensures exact { take (length from.now) to.new ≡ map counts_of (take (length to.old) from.now) }
    ensures rest { drop (length from.now) to.new ≡ drop (length from.now) to.old }
{
    for (index, counts) in to.iter_mut().enumerate() {
        let Some(arena) = from.get(index) else {
            break;
        };
        *counts = MarketCounts::of(arena);
    }
}

/// 1 where it is so.
fn one_if(so: bool) -> u32
    ensures { (result == 1) ≡ so }
{
    if so { 1 } else { 0 }
}

/// What the market allots to the arena is written.
#[unsafe(no_mangle)]
pub extern "C" fn market_raw_show(
    alloc: Global,
    place: &mut Place,
    arena: u32,
    view: &mut MarketView,
) -> i32
    ensures done { result ≡ pos 0 → Goes place.old.held.seat place.new.held.seat (λ p q. Called p (Show arena) (Shown (view_of view.new)) q) }
    ensures refused { IsRefused result → Goes place.old.held.seat place.new.held.seat (λ p q. (fault : Fault) × (result ≡ code_of fault) × Called p (Show arena) (Refused fault) q) }
    ensures told { Tells result (Show arena) place.old.held.seat place.new.held.seat }
    ensures unwritten { result ≢ pos 0 → view.new ≡ view.old }
{
    let answer = ask(alloc, place, Cmd::Show(ArenaId::new(arena)));
    match &answer {
        Ok(Reply::Shown(seen)) => {
            *view = MarketView {
                arena: seen.arena.get(),
                request: seen.request,
                allot: seen.allot,
                active: seen.active,
                recall: seen.recall,
                hire: seen.hire,
                top: one_if(seen.top),
            };
            OK
        }
        Ok(reply) => of_refusal(reply),
        Err(code) => *code,
    }
}

/// How many workers may be active is written.
#[unsafe(no_mangle)]
pub extern "C" fn market_raw_limit(alloc: Global, place: &mut Place, limit: &mut MarketLimit) -> i32
    ensures done { result ≡ pos 0 → Goes place.old.held.seat place.new.held.seat (λ p q. Called p Limit (Limits (limits_of limit.new)) q) }
    ensures told { Tells result Limit place.old.held.seat place.new.held.seat }
    ensures unwritten { result ≢ pos 0 → limit.new ≡ limit.old }
{
    let answer = ask(alloc, place, Cmd::Limit);
    match &answer {
        Ok(Reply::Limits(now)) => {
            *limit = MarketLimit {
                value: now.value,
                limit: now.limit,
                effective: now.effective,
            };
            OK
        }
        Ok(reply) => of_refusal(reply),
        Err(code) => *code,
    }
}

/// The arenas with workers too many or too few, each with its count, in the order in which arenas are served: as many of the first
/// ones are written as there is room for, and how many there are in all.
#[unsafe(no_mangle)]
pub extern "C" fn market_raw_lists(
    alloc: Global,
    place: &mut Place,
    arenas: &mut [MarketCounts],
    count: &mut u64,
) -> i32
    ensures done { result ≡ pos 0 → (all : List Imbalance) × Goes place.old.held.seat place.new.held.seat (λ p q. Called p Lists (Listed (record { recalls = counts_to Recall all; hires = counts_to Hire all })) q) × (count.new ≡ length all) × (take (length all) arenas.new ≡ map counts_of (take (length arenas.old) all)) × (drop (length all) arenas.new ≡ drop (length all) arenas.old) }
    ensures told { Tells result Lists place.old.held.seat place.new.held.seat }
    ensures unwritten { result ≢ pos 0 → (arenas.new ≡ arenas.old) × (count.new ≡ count.old) }
{
    let answer = ask(alloc, place, Cmd::Lists);
    match &answer {
        Ok(Reply::Listed(lists)) => {
            write_counts(&lists.arenas, arenas);
            *count = lists.arenas.len() as u64;
            OK
        }
        Ok(reply) => of_refusal(reply),
        Err(code) => *code,
    }
}
