//! Trees, lists of rows, levels, seats and lists of counts.
ghost use Rattle.std.specs.Prelude.{◌≡◌, ◌<◌, ◌≤◌, ◌∷◌, length, false};
ghost use Rattle.std.specs.List.{All};
ghost use Rattle.market_types.specs.Rows.{IsAbsent, insert_row};
ghost use Rattle.wide_rows.specs.Leveled.{rows_at, total_rows, with_first};

use crate::asserts::{holds, same};
use level_list::LevelList;
use market_types::{ArenaId, Correction, Imbalance, Lists, Row, SeatNo};
use prefix_tree::Tree;
use recall_hire::{Roster, Sharing, list};
use std::alloc::{AllocError, Global};
use std::process::Abort;
use std::rt::HostRuntime;
use wide_rows::Levels;

/// The row of an arena with the number of its stamp, which asks for 5.
fn row(stamp: u32) -> Row
    ensures { result ≡ record { stamp = stamp; arena = stamp; request = 5; mandated = false } }
{
    Row {
        stamp,
        arena: ArenaId::new(stamp),
        request: 5,
        mandated: false,
    }
}

/// The first four rows of a tree, and what all rows ask for.
fn what_is_in(tree: &Tree) -> ([Option<Row>; 4], u64) {
    let rows = [0, 1, 2, 3].map(|index| tree.walk(index).0);
    (rows, tree.total())
}

/// Inserts the row of a stamp, again where the growth was refused: then the rows were as before.
fn insert(rt: &impl Abort, alloc: Global, tree: &mut Tree, stamp: u32)
    requires room { length tree.old < 1024 }
    requires absent { IsAbsent stamp tree.old }
    ensures rows { tree.new ≡ insert_row (record { stamp = stamp; arena = stamp; request = 5; mandated = false }) tree.old }
{
    let before = what_is_in(tree);
    if tree.insert(alloc, row(stamp)).is_ok() {
        return;
    }
    same(rt, what_is_in(tree), before);
    let Ok(_) = tree.insert(alloc, row(stamp)) else {
        panic!(rt; "no memory");
    };
}

#[test]
fn a_refused_growth_leaves_the_tree(rt: HostRuntime) {
    let mut tree = Tree::new();
    insert(&rt, rt.alloc(), &mut tree, 2);
    insert(&rt, rt.alloc(), &mut tree, 3);
    insert(&rt, rt.alloc(), &mut tree, 1);
    let due = [Some(row(3)), Some(row(2)), Some(row(1)), None];
    same(&rt, what_is_in(&tree), (due, 15));
    drop(tree);
}

/// Pushes the row of a stamp, again where the first growth was refused: then the rows were as before.
fn push(rt: &impl Abort, alloc: Global, rows: &mut LevelList, stamp: u32)
    requires room { length rows.old < 1024 }
    requires newest { All (λ older. older.stamp < stamp) rows.old }
    ensures rows { rows.new ≡ record { stamp = stamp; arena = stamp; request = 5; mandated = false } ∷ rows.old }
{
    let count = rows.len();
    let demand = rows.demand();
    if rows.push(alloc, row(stamp)).is_ok() {
        return;
    }
    holds(rt, rows.len() == count && rows.demand() == demand);
    let Ok(_) = rows.push(alloc, row(stamp)) else {
        panic!(rt; "no memory");
    };
}

#[test]
fn a_refused_growth_leaves_the_rows(rt: HostRuntime) {
    let mut rows = LevelList::new();
    push(&rt, rt.alloc(), &mut rows, 1);
    push(&rt, rt.alloc(), &mut rows, 2);
    push(&rt, rt.alloc(), &mut rows, 3);
    same(&rt, rows.demand(), 15);
    for (index, arena) in [(0, 3), (1, 2), (2, 1)] {
        same(&rt, rows.walk(index).0, Some(row(arena)));
    }
    drop(rows);
}

/// Pushes the row of a stamp at level 1, again where the first growth was refused: then the rows were as before.
fn push_first(rt: &impl Abort, alloc: Global, levels: &mut Levels, stamp: u32)
    requires room { total_rows levels.old < 1024 }
    requires newest { All (λ older. older.stamp < stamp) (rows_at 0 levels.old) }
    ensures rows { levels.new ≡ with_first 0 (record { stamp = stamp; arena = stamp; request = 5; mandated = false }) levels.old }
{
    let count = levels.len();
    let demand = levels.demand(0);
    if levels.push(alloc, 0, row(stamp), &mut 0).is_ok() {
        return;
    }
    holds(rt, levels.len() == count && levels.demand(0) == demand);
    let Ok(()) = levels.push(alloc, 0, row(stamp), &mut 0) else {
        panic!(rt; "no memory");
    };
}

/// Three arenas at level 1 that ask for 5 workers each.
fn three_arenas(rt: &impl Abort, alloc: Global) -> Levels {
    let mut levels = Levels::new(alloc);
    push_first(rt, alloc, &mut levels, 1);
    push_first(rt, alloc, &mut levels, 2);
    push_first(rt, alloc, &mut levels, 3);
    levels
}

#[test]
fn a_refused_growth_leaves_the_levels(rt: HostRuntime) {
    let levels = three_arenas(&rt, rt.alloc());
    same(&rt, levels.demand(0), 15);
    for (index, arena) in [(0, 3), (1, 2), (2, 1)] {
        same(&rt, levels.walk(0, index, &mut 0), Some(row(arena)));
    }
    drop(levels);
}

/// So many seats, none placed.
fn seats(rt: &impl Abort, alloc: Global, count: u8) -> Roster
    requires some { 1 ≤ count }
    requires few { count ≤ 64 }
    ensures { length result ≡ count }
{
    if let Ok(roster) = Roster::new(alloc, count) {
        return roster;
    }
    let Ok(roster) = Roster::new(alloc, count) else {
        panic!(rt; "no memory");
    };
    roster
}

#[test]
fn a_refused_growth_leaves_a_roster_to_be_made(rt: HostRuntime) {
    let roster = seats(&rt, rt.alloc(), 64);
    same(&rt, roster.seats(), 64);
    same(&rt, roster.placed(), 0);
    drop(roster);
}

/// Places a seat that the roster has, and that is not placed.
fn place(roster: &mut Roster, seat: u8, arena: ArenaId) {
    if seat >= roster.seats() {
        return;
    }
    let seat = SeatNo::new(seat);
    if roster.at(seat).is_none() {
        roster.place(seat, arena);
    }
}

/// What is listed where each arena is allotted all that it asks for.
#[tactic(auto, using(recall_hire::proofs::Listings::few_actives))]
fn listed(levels: &Levels, roster: &Roster, alloc: Global) -> Result<Lists, AllocError> {
    let mut lists = Lists {
        arenas: Vec::new(alloc),
    };
    let _ = levels.len();
    let demand = levels.demand(0);
    let all = Sharing::Carried {
        workers: demand,
        demand,
    };
    let _ = roster.seats();
    let mut unmet = u32::MAX;
    list(
        roster,
        &levels.whole(0),
        all,
        &mut unmet,
        &mut lists,
        &mut 0,
    )?;
    Ok(lists)
}

/// An arena as it is listed.
fn counted(arena: u32, correction: Correction, count: u32) -> Imbalance {
    Imbalance {
        arena: ArenaId::new(arena),
        correction,
        count,
    }
}

#[test]
fn a_refused_growth_leaves_arenas_to_be_listed(rt: HostRuntime) {
    let levels = three_arenas(&rt, rt.alloc());
    let mut roster = seats(&rt, rt.alloc(), 6);
    for seat in 0..6 {
        place(&mut roster, seat, ArenaId::new(3));
    }
    let lists = match listed(&levels, &roster, rt.alloc()) {
        Ok(lists) => lists,
        Err(_) => {
            let Ok(lists) = listed(&levels, &roster, rt.alloc()) else {
                panic!(&rt; "no memory");
            };
            lists
        }
    };
    let due = [
        counted(3, Correction::Recall, 1),
        counted(2, Correction::Hire, 5),
        counted(1, Correction::Hire, 5),
    ];
    same(&rt, lists.arenas.as_slice(), due.as_slice());
    drop(lists);
    drop(roster);
    drop(levels);
}
