//! Seats at their arenas, and who is in need.
ghost use Rattle.std.specs.Prelude.{◌≡◌, ◌<◌, ◌≤◌, None, All, replicate};
ghost use Rattle.wide_rows.specs.Leveled.{rows_at, total_rows, with_first};

use crate::asserts::{holds, same};
use market_types::{ArenaId, Correction, Imbalance, Lists, Row, SeatNo};
use recall_hire::{Roster, Sharing, first_in_need, list};
use std::alloc::Global;
use std::process::Abort;
use std::rt::HostRuntime;
use wide_rows::Levels;

/// The row of an arena with the number of its stamp.
fn row(stamp: u32, request: u32) -> Row
    ensures stamp { result.stamp ≡ stamp }
    ensures request { result.request ≡ request }
{
    Row {
        stamp,
        arena: ArenaId::new(stamp),
        request,
        mandated: false,
    }
}

/// Pushes a row of level 1 that is newer than all others there.
fn pushed(rt: &impl Abort, alloc: Global, rows: &mut Levels, row: Row)
    requires room { total_rows rows.old < 1024 }
    requires request { row.request ≤ 65535 }
    requires newest { All (λ older. older.stamp < row.stamp) (rows_at 0 rows.old) }
    ensures { rows.new ≡ with_first 0 row rows.old }
{
    holds(rt, rows.push(alloc, 0, row, &mut 0).is_ok());
}

/// The first arena in need of a level that is assigned so many workers, or all that it asks for.
fn need(roster: &Roster, rows: &Levels, workers: u64) -> (Option<ArenaId>, u32) {
    let _ = rows.len();
    let demand = rows.demand(0);
    let mut visits = 0;
    let found = first_in_need(
        roster,
        &rows.whole(0),
        workers.min(demand),
        demand,
        &mut visits,
    );
    (found, visits)
}

#[test]
fn seats_are_counted_at_their_arenas(rt: HostRuntime) {
    let arena = ArenaId::new(1);
    // Its slot is that of the other.
    let other = ArenaId::new(1025);
    let mut roster = seats(&rt, rt.alloc(), 2);
    same(&rt, roster.seats(), 2);
    roster.place(SeatNo::new(0), arena);
    same(&rt, roster.active(arena), 1);
    same(&rt, roster.active(other), 0);
    roster.place(SeatNo::new(1), arena);
    same(&rt, roster.active(arena), 2);
    same(&rt, roster.placed(), 2);
    same(&rt, roster.at(SeatNo::new(1)), Some(arena));
    same(&rt, roster.unplace(SeatNo::new(0)), Some(arena));
    same(&rt, roster.unplace(SeatNo::new(0)), None);
    same(&rt, roster.active(arena), 1);
    same(&rt, roster.placed(), 1);
    roster.place(SeatNo::new(0), other);
    same(&rt, roster.active(other), 1);
    same(&rt, roster.placed(), 2);
    drop(roster);
}

/// Arenas 1, 2 and 3, which ask for 2, 5 and 1 workers.
fn three_arenas(rt: &impl Abort, alloc: Global) -> Levels {
    let mut rows = Levels::new(alloc);
    pushed(rt, alloc, &mut rows, row(1, 2));
    pushed(rt, alloc, &mut rows, row(2, 5));
    pushed(rt, alloc, &mut rows, row(3, 1));
    rows
}

/// So many seats, none placed.
fn seats(rt: &impl Abort, alloc: Global, count: u8) -> Roster
    requires some { 1 ≤ count }
    requires few { count ≤ 64 }
    ensures { result ≡ replicate count None }
{
    let Ok(roster) = Roster::new(alloc, count) else {
        panic!(rt; "no memory");
    };
    roster
}

/// Two seats, both at arena 3.
fn two_placed(rt: &impl Abort, alloc: Global) -> Roster {
    let mut roster = seats(rt, alloc, 2);
    roster.place(SeatNo::new(0), ArenaId::new(3));
    roster.place(SeatNo::new(1), ArenaId::new(3));
    roster
}

/// Where nobody is placed, the worker goes to the newest arena.
fn nobody_is_placed(rt: &impl Abort, alloc: Global, rows: &Levels) {
    let roster = seats(rt, alloc, 2);
    same(rt, need(&roster, &Levels::new(alloc), 8), (None, 0));
    same(rt, need(&roster, rows, 0), (None, 0));
    same(rt, need(&roster, rows, 8), (Some(ArenaId::new(3)), 1));
    drop(roster);
}

/// Where that has too many already, it goes to the next one.
fn two_are_placed(rt: &impl Abort, alloc: Global, rows: &Levels) {
    let roster = two_placed(rt, alloc);
    same(rt, need(&roster, rows, 8), (Some(ArenaId::new(2)), 2));
    drop(roster);
}

#[test]
fn a_worker_goes_to_the_first_arena_in_need(rt: HostRuntime) {
    let rows = three_arenas(&rt, rt.alloc());
    nobody_is_placed(&rt, rt.alloc(), &rows);
    two_are_placed(&rt, rt.alloc(), &rows);
    drop(rows);
}

/// What is listed of arenas, where each is allotted all that it asks for, or one worker goes to arena 3.
#[tactic(auto, using(recall_hire::proofs::Listings::few_actives))]
fn listed(rt: &impl Abort, alloc: Global, rows: &Levels, roster: &Roster, all: bool) -> Lists {
    let mut lists = Lists {
        arenas: Vec::new(alloc),
    };
    let demand = rows.demand(0);
    let sharing = if all {
        Sharing::Carried {
            workers: demand,
            demand,
        }
    } else {
        Sharing::Picked {
            arena: Some(ArenaId::new(3)),
            workers: 1,
        }
    };
    let _ = roster.seats();
    let mut unmet = u32::MAX;
    holds(
        rt,
        list(
            roster,
            &rows.whole(0),
            sharing,
            &mut unmet,
            &mut lists,
            &mut 0,
        )
        .is_ok(),
    );
    lists
}

/// An arena as it is listed.
fn counted(arena: u32, correction: Correction, count: u32) -> Imbalance {
    Imbalance {
        arena: ArenaId::new(arena),
        correction,
        count,
    }
}

/// Each arena is allotted all that it asks for.
fn all_are_listed(rt: &impl Abort, alloc: Global, rows: &Levels, roster: &Roster) {
    let lists = listed(rt, alloc, rows, roster, true);
    let due = [
        counted(3, Correction::Recall, 1),
        counted(2, Correction::Hire, 5),
        counted(1, Correction::Hire, 2),
    ];
    same(rt, lists.arenas.as_slice(), due.as_slice());
    same(rt, lists.len(), 3);
    drop(lists);
}

/// One worker goes to arena 3.
fn one_is_listed(rt: &impl Abort, alloc: Global, rows: &Levels, roster: &Roster) {
    let lists = listed(rt, alloc, rows, roster, false);
    let due = [counted(3, Correction::Recall, 1)];
    same(rt, lists.arenas.as_slice(), due.as_slice());
    drop(lists);
}

#[test]
fn counts_are_listed_in_order(rt: HostRuntime) {
    let rows = three_arenas(&rt, rt.alloc());
    let roster = two_placed(&rt, rt.alloc());
    all_are_listed(&rt, rt.alloc(), &rows, &roster);
    one_is_listed(&rt, rt.alloc(), &rows, &roster);
    drop(roster);
    drop(rows);
}

#[test]
fn an_arena_with_one_worker_of_three_hires_two(rt: HostRuntime) {
    let mut rows = Levels::new(rt.alloc());
    pushed(&rt, rt.alloc(), &mut rows, row(1, 3));
    let mut roster = seats(&rt, rt.alloc(), 2);
    roster.place(SeatNo::new(0), ArenaId::new(1));
    let lists = listed(&rt, rt.alloc(), &rows, &roster, true);
    let due = [counted(1, Correction::Hire, 2)];
    same(&rt, lists.arenas.as_slice(), due.as_slice());
    drop(lists);
    drop(roster);
    drop(rows);
}
