//! The arenas of a level.
ghost use Rattle.std.specs.Prelude.{◌≡◌, ◌<◌, ◌≤◌, ◌∷◌, length, false};
ghost use Rattle.std.specs.List.{All};

use crate::asserts::same;
use level_list::LevelList;
use market_types::{ArenaId, Row};
use std::alloc::Global;
use std::process::Abort;
use std::rt::HostRuntime;

/// The row of an arena, which asks for 5.
fn row(stamp: u32, arena: u32) -> Row
    ensures { result ≡ record { stamp = stamp; arena = arena; request = 5; mandated = false } }
{
    Row {
        stamp,
        arena: ArenaId::new(arena),
        request: 5,
        mandated: false,
    }
}

/// Pushes a row, and says how many nodes that entered.
pub(crate) fn pushed(rt: &impl Abort, alloc: Global, list: &mut LevelList, row: Row) -> u32
    requires room { length list.old < 1024 }
    requires request { row.request ≤ 65535 }
    requires newest { All (λ older. older.stamp < row.stamp) list.old }
    ensures rows { list.new ≡ row ∷ list.old }
{
    let Ok(visits) = list.push(alloc, row) else {
        panic!(rt; "no memory");
    };
    visits
}

/// Three rows, newest first.
fn shows_three(rt: &impl Abort, list: &LevelList) {
    same(rt, list.len(), 3);
    same(rt, list.demand(), 15);
    same(rt, list.before(2).0, 5);
    for (place, arena) in [(0, 3), (1, 2), (2, 1)] {
        same(rt, list.walk(place).0, Some(row(arena, arena)));
    }
    same(rt, list.first_mandated().0, None);
}

/// The oldest row has become the newest.
fn shows_moved(rt: &impl Abort, list: &LevelList) {
    same(rt, list.walk(0).0, Some(row(4, 1)));
    same(rt, list.walk(3).0, None);
    same(rt, list.before(2).0, 10);
}

#[test]
fn lists_newest_first(rt: HostRuntime) {
    let mut list = LevelList::new();
    same(&rt, pushed(&rt, rt.alloc(), &mut list, row(1, 1)), 1);
    pushed(&rt, rt.alloc(), &mut list, row(2, 2));
    pushed(&rt, rt.alloc(), &mut list, row(3, 3));
    shows_three(&rt, &list);
    if let Some(taken) = list.take(1).0 {
        same(&rt, taken.row(), row(1, 1));
        list.put(taken, 4);
    }
    shows_moved(&rt, &list);
    drop(list);
}
