//! Calls of the tests that look first whether the levels are as the call requires.
ghost use Rattle.std.specs.Prelude.{◌≡◌, ◌<◌, ◌≤◌, All, Some, IfSome, IsTrue};
ghost use Rattle.market_types.specs.Rows.{row_at};
ghost use Rattle.wide_rows.specs.Leveled.{rows_at};

use crate::asserts::holds;
use market_types::Row;
use std::alloc::Global;
use std::process::Abort;
use wide_rows::Levels;

/// A stamp is newer than all of a level: than the first, or there is none.
pub(crate) fn is_newest(levels: &Levels, level: usize, stamp: u32) -> bool
    requires level { level < 8 }
    ensures { IsTrue result → All (λ older. older.stamp < stamp) (rows_at level levels.now) }
{
    let _rows = levels.len();
    let Some(newest) = levels.walk(level, 0, &mut 0) else {
        return true;
    };
    newest.stamp < stamp
}

/// The row at an index of a level, which is the row of its stamp.
pub(crate) fn row_there(levels: &Levels, level: usize, index: usize) -> Option<Row>
    requires level { level < 8 }
    ensures { IfSome result (λ row. row_at row.stamp (rows_at level levels.now) ≡ Some row) }
{
    let _rows = levels.len();
    levels.walk(level, index, &mut 0)
}

/// Pushes a row that is the newest of its level, where there is room and memory.
pub(crate) fn pushed(
    rt: &impl Abort,
    alloc: Global,
    levels: &mut Levels,
    level: usize,
    row: Row,
) -> u32
    requires level { level < 8 }
    requires request { row.request ≤ 65535 }
{
    holds(rt, levels.len() < 1024);
    holds(rt, is_newest(levels, level, row.stamp));
    let mut visits = 0;
    let Ok(()) = levels.push(alloc, level, row, &mut visits) else {
        panic!(rt; "no memory");
    };
    visits
}

/// Sets the request and the mandate of the row at an index.
pub(crate) fn updated(
    rt: &impl Abort,
    levels: &mut Levels,
    level: usize,
    index: usize,
    request: u32,
    mandated: bool,
) -> u32
    requires level { level < 8 }
    requires request { request ≤ 65535 }
{
    let Some(row) = row_there(levels, level, index) else {
        panic!(rt; "no row there");
    };
    let mut near = 0;
    let mut visits = 0;
    levels.update(level, row, request, mandated, &mut near, &mut visits);
    visits
}

/// Promotes the row at an index of a level, to be the newest of another or of the same.
pub(crate) fn promoted(
    rt: &impl Abort,
    levels: &mut Levels,
    from: usize,
    index: usize,
    to: usize,
    newest: u32,
) -> u32
    requires from { from < 8 }
    requires to { to < 8 }
{
    holds(rt, is_newest(levels, to, newest));
    let Some(row) = row_there(levels, from, index) else {
        panic!(rt; "no row there");
    };
    let _rows = levels.len();
    let mut visits = 0;
    levels.promote(from, row.stamp, to, newest, &mut visits);
    visits
}
