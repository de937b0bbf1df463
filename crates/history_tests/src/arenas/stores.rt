//! What no clause says: that the store answers at all where memory is ample.
ghost use Rattle.std.specs.Prelude.{◌≡◌, IfOk};

use crate::asserts::{holds, same};
use arena_record::ArenaRecord;
use arena_store::{Arenas, Change, StoredArena};
use market_types::{ArenaId, Fault, Level};
use std::alloc::Global;
use std::process::Abort;
use std::rt::HostRuntime;

/// A new arena of 8 slots, one of them reserved, under a number that is its stamp too.
fn arena(number: u32, level: Level) -> Result<StoredArena, Fault>
    ensures number { IfOk result (λ arena. arena.number ≡ number) }
    ensures stamp { IfOk result (λ arena. arena.stamp ≡ number) }
{
    let claim = ArenaRecord::new(8, 1)?;
    Ok(StoredArena::new(ArenaId::new(number), number, level, claim))
}

/// Arenas 1 and 2 of this level.
fn two_arenas(rt: &impl Abort, alloc: Global, level: Level) -> Arenas {
    let mut arenas = Arenas::new(alloc);
    let (Ok(old), Ok(new)) = (arena(1, level), arena(2, level)) else {
        panic!(rt; "no arena");
    };
    let mut visits = 0;
    holds(rt, arenas.push(alloc, old, &mut visits).is_ok());
    same(rt, visits, 1);
    let mut visits = 0;
    holds(rt, arenas.push(alloc, new, &mut visits).is_ok());
    same(rt, visits, 2);
    arenas
}

/// The arena of this number asks for so many workers, and one that is mandatory.
fn asks(rt: &impl Abort, arenas: &mut Arenas, number: u32, workers: i32) {
    let asked = arenas.change(ArenaId::new(number), Change::Add(workers, 1), &mut 0);
    holds(rt, matches!(asked, Ok(claim) if claim.mandatory() == 1));
}

/// What the level asks for together.
fn are_summed(rt: &impl Abort, arenas: &Arenas, level: Level) {
    holds(rt, arenas.len() == 2 && arenas.has_mandatory());
    same(rt, arenas.demand(level), 5);
    holds(
        rt,
        arenas.before(level, 1, &mut 0) == 2 && arenas.whole(level).requests() == 5,
    );
}

/// The newer arena is the first.
fn are_in_order(rt: &impl Abort, arenas: &Arenas, level: Level) {
    same(
        rt,
        arenas.first_mandated(level, &mut 0),
        Some(ArenaId::new(2)),
    );
    let first = arenas.nth_of(level, 0);
    holds(rt, matches!(first, Some(found) if found.stamp() == 2));
    holds(rt, arenas.nth_of(level, 2).is_none());
}

/// The first arena goes.
fn first_goes(rt: &impl Abort, arenas: &mut Arenas) {
    holds(rt, arenas.remove(ArenaId::new(1), &mut 0).is_some());
    holds(rt, arenas.get(ArenaId::new(1)).is_none());
    same(rt, arenas.demands(), [0, 0, 2, 0, 0, 0, 0, 0]);
}

#[test]
fn two_arenas_are_told_by_number_and_by_level(rt: HostRuntime) {
    let level = Level::from_index(2);
    let mut arenas = two_arenas(&rt, rt.alloc(), level);
    asks(&rt, &mut arenas, 1, 3);
    asks(&rt, &mut arenas, 2, 2);
    are_summed(&rt, &arenas, level);
    are_in_order(&rt, &arenas, level);
    first_goes(&rt, &mut arenas);
    drop(arenas);
}
